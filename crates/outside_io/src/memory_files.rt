// Files in memory.
ghost use Rattle.std.specs.Prelude.{◌≡◌, ◌≤◌, IfOk, IfSome, Some, None, length, map, option_map, string_bytes};
ghost use Rattle.outside_io.specs.Contents.{IsReadOf, HasFileCause, MatchFault};
ghost use Rattle.outside_io.specs.Faults.{count_after};

use crate::failures::FailingCalls;
use crate::{FileRefusal, Files};
use std::alloc::Global;
use std::marker::Model;

/// Files that lie in memory. They tell their contents, and fail at listed calls and for a name that isn't there.
#[derive(Drop)]
pub struct MemoryFiles {
    entries: Vec<(String, Vec<u8>)>,
    failing: FailingCalls,
    faults: u64,
    failed_last: Option<String>,
}

impl Model for MemoryFiles {
    ghost use Rattle.std.specs.Prelude.{map, option_map, string_bytes};
    ghost use Rattle.outside_io.specs.Memory.{MemoryFilesState};

    ghost Value = { MemoryFilesState };

    ghost view = { λ s. record {
      entries = map (λ e. (string_bytes e.0, e.1.items)) s.entries.items;
      failures = s.failing;
      faults = s.faults;
      failed_last = option_map string_bytes s.failed_last;
    } };
}

impl MemoryFiles {
    ghost use Rattle.outside_io.specs.Memory.{failures_of};

    /// Files of these names with these contents; of two entries with one name the first counts. The calls
    /// whose numbers, from 0, are in `failing` fail, and so does a name that isn't there; no others do.
    pub fn new(entries: Vec<(String, Vec<u8>)>, failing: Vec<u64>) -> MemoryFiles
        ensures { result ≡ record {
          entries = map (λ e. (string_bytes e.0, e.1.items)) entries.items;
          failures = failures_of failing.items;
          faults = 0;
          failed_last = None;
        } }
    {
        MemoryFiles {
            entries,
            failing: FailingCalls::new(failing),
            faults: 0,
            failed_last: None,
        }
    }
}

ghost use Rattle.outside_io.specs.Memory.{content_of};

// The content of the first entry of that name.
fn find<'a>(entries: &'a [(String, Vec<u8>)], name: &str) -> Option<&'a Vec<u8>>
    ensures { option_map (λ v. v.now.items) result ≡ content_of (map (λ e. (string_bytes e.0, e.1.items)) entries.now) name.now }
{
    for entry in entries {
        if entry.0.as_str() == name {
            return Some(&entry.1);
        }
    }
    None
}

impl Files for MemoryFiles {
    ghost use Rattle.outside_io.specs.Memory.{content_of, failures_after, IsMemoryRead};

    ghost state = { λ s. record { contents = Some (content_of s.entries); faults = s.faults; failed_last = s.failed_last } };

    fn read_file(&mut self, alloc: Global, name: &str, limit: usize) -> Result<Vec<u8>, FileRefusal>
        ensures content { IsReadOf (λ v. v.items) (content_of self.old.entries name.now) limit result }
        ensures within { IfOk result (λ v. length v.items ≤ limit) }
        ensures same { Some (content_of self.new.entries) ≡ Some (content_of self.old.entries) }
        ensures cause { HasFileCause name.now (⟦<MemoryFiles as Files>⟧.state self.old) (⟦<MemoryFiles as Files>⟧.state self.new) result }

        ensures fails { IsMemoryRead self.old.failures (content_of self.old.entries name.now) limit result }
        ensures after { MatchFault result
            (self.new ≡ record self.old { failures = failures_after self.old.failures; faults = count_after self.old.faults; failed_last = Some name.now })
            (self.new ≡ record self.old { failures = failures_after self.old.failures }) }
    {
        let fails = self.failing.fails_now();
        match find(&self.entries, name) {
            Some(content) if !fails => {
                if content.len() > limit {
                    return Err(FileRefusal::TooLong);
                }
                content.to_vec(alloc).map_err(|_| FileRefusal::NoMemory)
            }
            _ => {
                let Ok(name) = String::from_str(alloc, name) else {
                    return Err(FileRefusal::NoMemory);
                };
                self.faults = self.faults.saturating_add(1);
                self.failed_last = Some(name);
                Err(FileRefusal::Failed)
            }
        }
    }
}
