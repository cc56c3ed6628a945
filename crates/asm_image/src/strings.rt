// What strings say.
ghost use Rattle.std.specs.Prelude.{◌≡◌, ◌++◌, None, [], IfSome, OnOk, drop, length};
ghost use Rattle.asm_text.specs.Lines.{slice_of};
ghost use Rattle.asm_image.specs.Places.{escaped, said_by, string_of};
ghost use Rattle.asm_image.specs.Strings.{SaysFirst};

use asm_text::Span;
use std::alloc::AllocError;

// The byte that stands behind a backslash.
fn escaped(byte: u8) -> u8
    ensures { result ≡ escaped byte }
{
    match byte {
        b'n' => b'\n',
        b't' => b'\t',
        b'0' => 0,
        other => other,
    }
}

// The first byte that the rest of a string says, and the number of bytes that say it. There is none at the last quote.
fn said_first(bytes: &[u8]) -> Option<(u8, usize)>
    ensures some { IfSome result (λ first. SaysFirst bytes.now first.0 first.1) }
    ensures none { result ≡ None → said_by bytes.now ≡ [] }
{
    if bytes.len() < 2 {
        None
    } else if bytes[0] == b'\\' {
        Some((escaped(bytes[1]), 2))
    } else {
        Some((bytes[0], 1))
    }
}

// The bytes of a string behind its first quote.
fn behind_quote(text: &[u8], span: Span) -> &[u8]
    ensures { result.now ≡ drop 1 (slice_of text.now span) }
{
    let bytes = span.slice(text);
    &bytes[bytes.len().min(1)..]
}

/// The number of bytes that a string says.
pub fn string_size(text: &[u8], span: Span) -> usize
    ensures { result ≡ length (string_of text.now span) }
{
    let mut rest = behind_quote(text, span);
    let mut size = 0;
    while let Some((_, taken)) = said_first(rest) {
        rest = &rest[taken..];
        size += 1;
    }
    size
}

/// Adds the bytes that a string says.
pub fn push_string(text: &[u8], span: Span, out: &mut Vec<u8>) -> Result<(), AllocError>
    ensures { OnOk result (out.new.items ≡ out.old.items ++ string_of text.now span) }
{
    let mut rest = behind_quote(text, span);
    while let Some((byte, taken)) = said_first(rest) {
        out.push(byte)?;
        rest = &rest[taken..];
    }
    Ok(())
}
