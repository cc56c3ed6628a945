// Command lines, with what they say or where they are at fault.
use crate::{Command, Options, WordFault, read_words};
use machine_types::{Config, Rule};
use std::alloc::{AllocError, Global};
use std::test::Fail;

// What a line without options says.
const PLAIN: Options = Options {
    config: Config {
        frames: 4096,
        regions: 16,
        slots: 16,
        steps: 20_000_000,
        rule: Rule::Full,
    },
    schedule: None,
};

// What words say.
fn read(alloc: Global, words: &[&str]) -> Result<Result<Command, WordFault>, AllocError> {
    let mut all = Vec::new(alloc);
    for word in words {
        all.push(String::from_str(alloc, word)?)?;
    }
    Ok(read_words(&all))
}

// To run the image that a word names.
fn run(options: Options, image: usize) -> Result<Command, WordFault> {
    Ok(Command::Run { options, image })
}

fn fault(place: u64) -> Result<Command, WordFault> {
    Err(WordFault { place })
}

// The place of the fault of words: 0 where they are a command.
fn place(alloc: Global, words: &[&str]) -> Result<u64, AllocError> {
    Ok(match read(alloc, words)? {
        Ok(_) => 0,
        Err(WordFault { place }) => place,
    })
}

#[test]
fn faults_have_places(rt: HostRuntime) -> Result<(), Fail> {
    let alloc = rt.alloc();
    assert_eq!(rt; place(alloc, &[])?, 1);
    assert_eq!(rt; place(alloc, &[""])?, 1);
    assert_eq!(rt; place(alloc, &["dump", "a"])?, 1);
    assert_eq!(rt; place(alloc, &["Run", "a"])?, 1);
    assert_eq!(rt; place(alloc, &["run"])?, 2);
    assert_eq!(rt; place(alloc, &["run", ""])?, 2);
    assert_eq!(rt; place(alloc, &["run", "-a"])?, 2);
    assert_eq!(rt; place(alloc, &["run", "--steps=5", "a"])?, 2);
    assert_eq!(rt; place(alloc, &["run", "a", "b"])?, 3);
    assert_eq!(rt; place(alloc, &["run", "--frames"])?, 3);
    assert_eq!(rt; place(alloc, &["run", "--frames", "1"])?, 4);
    assert_eq!(rt; place(alloc, &["run", "a", "--frames", "1"])?, 3);
    Ok(())
}

#[test]
fn tools_take_a_file_and_no_options(rt: HostRuntime) -> Result<(), Fail> {
    let alloc = rt.alloc();
    assert_eq!(rt; read(alloc, &["asm", "a"])?, Ok(Command::Asm { file: 1 }));
    assert_eq!(rt;
        read(alloc, &["disasm", "run"])?,
        Ok(Command::Disasm { file: 1 })
    );
    assert_eq!(rt;
        read(alloc, &["check", "a-b"])?,
        Ok(Command::Check { file: 1 })
    );
    assert_eq!(rt; place(alloc, &["asm"])?, 2);
    assert_eq!(rt; place(alloc, &["asm", ""])?, 2);
    assert_eq!(rt; place(alloc, &["disasm", "-a"])?, 2);
    assert_eq!(rt; place(alloc, &["asm", "a", "b"])?, 3);
    assert_eq!(rt; place(alloc, &["check", "--frames", "1", "a"])?, 2);
    assert_eq!(rt; place(alloc, &["disasm", "a", "--frames"])?, 3);
    assert_eq!(rt; place(alloc, &["asmx", "a"])?, 1);
    assert_eq!(rt; place(alloc, &["a", "check"])?, 1);
    Ok(())
}

// The same of a line with one option.
fn with_option(alloc: Global, name: &str, value: &str) -> Result<u64, AllocError> {
    place(alloc, &["run", name, value, "a"])
}

#[test]
fn values_have_limits(rt: HostRuntime) -> Result<(), Fail> {
    let alloc = rt.alloc();
    for (name, value, want) in [
        ("--frames", "0", 3),
        ("--frames", "1", 0),
        ("--frames", "4096", 0),
        ("--frames", "4097", 3),
        ("--frames", "5000", 3),
        ("--regions", "0", 3),
        ("--regions", "1", 0),
        ("--regions", "64", 0),
        ("--regions", "65", 3),
        ("--slots", "0", 3),
        ("--slots", "1", 0),
        ("--slots", "64", 0),
        ("--slots", "65", 3),
        ("--steps", "0", 0),
        ("--steps", "1000000000", 0),
        ("--steps", "1000000001", 3),
        ("--copy", "full", 0),
        ("--copy", "access", 3),
        ("--copy", "pointer", 3),
        ("--copy", "Full", 3),
        ("--schedule", "s", 0),
        ("--schedule", "-s", 3),
        ("--schedule", "", 3),
        ("--Frames", "1", 2),
        ("-frames", "1", 2),
        ("--", "1", 2),
    ] {
        assert_eq!(rt; with_option(alloc, name, value)?, want, "at {name} {value}");
    }
    Ok(())
}

#[test]
fn numbers_are_plain_digits(rt: HostRuntime) -> Result<(), Fail> {
    let alloc = rt.alloc();
    for value in [
        "",
        "+1",
        "-1",
        " 1",
        "1 ",
        "1 0",
        "01",
        "010",
        "00",
        "1_0",
        "0x1",
        "1.0",
        "one",
        "10000000000000000000",
        "18446744073709551617",
    ] {
        for name in ["--frames", "--regions", "--slots", "--steps"] {
            assert_eq!(rt; with_option(alloc, name, value)?, 3, "at {name} {value}");
        }
    }
    Ok(())
}

#[test]
fn an_option_stands_once(rt: HostRuntime) -> Result<(), Fail> {
    let alloc = rt.alloc();
    for (name, value) in [
        ("--frames", "1"),
        ("--regions", "1"),
        ("--slots", "1"),
        ("--steps", "1"),
        ("--copy", "full"),
        ("--schedule", "s"),
    ] {
        assert_eq!(rt;
            place(alloc, &["run", name, value, name, value, "a"])?,
            4,
            "at {name}"
        );
        assert_eq!(rt; place(alloc, &["run", name, value, name])?, 4, "at {name}");
    }
    Ok(())
}

#[test]
fn options_are_said(rt: HostRuntime) -> Result<(), Fail> {
    let alloc = rt.alloc();
    let all = Options {
        config: Config {
            frames: 100,
            regions: 7,
            slots: 9,
            steps: 0,
            rule: Rule::Full,
        },
        schedule: Some(12),
    };
    assert_eq!(rt; read(alloc, &["run", "a"])?, run(PLAIN, 1));
    assert_eq!(rt;
        read(
            alloc,
            &[
                "run",
                "--frames",
                "100",
                "--regions",
                "7",
                "--slots",
                "9",
                "--steps",
                "0",
                "--copy",
                "full",
                "--schedule",
                "s",
                "a",
            ],
        )?,
        run(all, 13),
    );
    assert_eq!(rt;
        read(
            alloc,
            &[
                "run",
                "--schedule",
                "full",
                "--copy",
                "full",
                "--steps",
                "0",
                "--slots",
                "9",
                "--regions",
                "7",
                "--frames",
                "100",
                "full",
            ],
        )?,
        run(
            Options {
                schedule: Some(2),
                ..all
            },
            13,
        ),
    );
    assert_eq!(rt; read(alloc, &["run", "--frames", "100"])?, fault(4));
    Ok(())
}

#[test]
fn each_option_says_its_own(rt: HostRuntime) -> Result<(), Fail> {
    let alloc = rt.alloc();
    for (name, config) in [
        (
            "--frames",
            Config {
                frames: 5,
                ..PLAIN.config
            },
        ),
        (
            "--regions",
            Config {
                regions: 5,
                ..PLAIN.config
            },
        ),
        (
            "--slots",
            Config {
                slots: 5,
                ..PLAIN.config
            },
        ),
        (
            "--steps",
            Config {
                steps: 5,
                ..PLAIN.config
            },
        ),
    ] {
        let options = Options {
            config,
            schedule: None,
        };
        assert_eq!(rt;
            read(alloc, &["run", name, "5", "a"])?,
            run(options, 3),
            "at {name}"
        );
    }
    Ok(())
}
