//! Words and the jobs that they name, from the rules of the command line.
#![tactic(auto)]

use super::*;
use std::alloc::{AllocError, Global};
use std::test::Fail;
use vs_outside::{List, Text};

fn texts(alloc: Global, words: &[&str]) -> Result<List<Text>, AllocError> {
    let mut texts = List::new(alloc);
    for word in words {
        texts.push(Text::from_vec(Vec::from_slice(alloc, word.as_bytes())?))?;
    }
    Ok(texts)
}

#[test]
fn seeds(rt: HostRuntime) -> Result<(), Fail> {
    let cases: [(&[&str], u64); 6] = [
        (&["script"], 0),
        (&["script", "--seed", "7"], 7),
        (&["script", "--seed=7"], 7),
        (&["script", "--seed", "0"], 0),
        (&["script", "--seed=18446744073709551615"], u64::MAX),
        (&["script", "--seed", "18446744073709551615"], u64::MAX),
    ];
    for (words, seed) in cases {
        let texts = texts(rt.alloc(), words)?;
        let job = read_words(rt.alloc(), texts.as_slice());
        assert_eq!(rt; job, Ok(Job::Script { seed }));
    }
    Ok(())
}

#[test]
fn schedules(rt: HostRuntime) -> Result<(), Fail> {
    let texts = texts(rt.alloc(), &["schedule"])?;
    let job = read_words(rt.alloc(), texts.as_slice());
    assert_eq!(rt; job, Ok(Job::Schedule));
    Ok(())
}

#[test]
fn generated_sets(rt: HostRuntime) -> Result<(), Fail> {
    let cases: [(&[&str], u64, u32, u32); 9] = [
        (&["generate"], 0, 20_000, 256),
        (&["generate", "--seed", "7"], 7, 20_000, 256),
        (&["generate", "--members=1"], 0, 1, 256),
        (&["generate", "--members", "1048576"], 0, 1_048_576, 256),
        (&["generate", "--dim", "1"], 0, 20_000, 1),
        (&["generate", "--dim=4096"], 0, 20_000, 4096),
        (&["generate", "--dim=33", "--seed=5"], 5, 20_000, 33),
        (
            &["generate", "--dim", "2", "--members=17", "--seed", "9"],
            9,
            17,
            2,
        ),
        (
            &["generate", "--seed=18446744073709551615", "--members", "2"],
            u64::MAX,
            2,
            256,
        ),
    ];
    for (words, seed, members, dim) in cases {
        let texts = texts(rt.alloc(), words)?;
        let job = read_words(rt.alloc(), texts.as_slice());
        assert_eq!(rt; job, Ok(Job::Generate { seed, members, dim }));
    }
    Ok(())
}

#[test]
fn servers(rt: HostRuntime) -> Result<(), Fail> {
    let cases: [(&[&str], u16, u32, u64, u32); 9] = [
        (&["serve"], 6379, 8, 0, u32::MAX),
        (&["serve", "--port", "1"], 1, 8, 0, u32::MAX),
        (&["serve", "--port=65535"], 65_535, 8, 0, u32::MAX),
        (&["serve", "--workers=1"], 6379, 1, 0, u32::MAX),
        (&["serve", "--workers", "64"], 6379, 64, 0, u32::MAX),
        (&["serve", "--seed=7"], 6379, 8, 7, u32::MAX),
        (&["serve", "--connections", "1"], 6379, 8, 0, 1),
        (
            &["serve", "--connections=4294967295"],
            6379,
            8,
            0,
            4_294_967_295,
        ),
        (
            &[
                "serve",
                "--connections=3",
                "--seed",
                "18446744073709551615",
                "--workers=2",
                "--port",
                "80",
            ],
            80,
            2,
            u64::MAX,
            3,
        ),
    ];
    for (words, port, workers, seed, connections) in cases {
        let texts = texts(rt.alloc(), words)?;
        let job = read_words(rt.alloc(), texts.as_slice());
        let wanted = Job::Serve {
            port,
            workers,
            seed,
            connections,
        };
        assert_eq!(rt; job, Ok(wanted));
    }
    Ok(())
}

#[test]
fn bad_words(rt: HostRuntime) -> Result<(), Fail> {
    let cases: [&[&str]; 63] = [
        &[],
        &[""],
        &["Script"],
        &["Schedule"],
        &["schedules"],
        &["schedule", ""],
        &["schedule", "x"],
        &["schedule", "schedule"],
        &["schedule", "--seed", "1"],
        &["schedule", "--seed=1"],
        &["script", ""],
        &["script", "script"],
        &["script", "--"],
        &["script", "--help"],
        &["script", "--version"],
        &["script", "--seed"],
        &["script", "--seed="],
        &["script", "--seed", ""],
        &["script", "--seed=07"],
        &["script", "--seed", "00"],
        &["script", "--seed", "+5"],
        &["script", "--seed", "-1"],
        &["script", "--seed", "1_000"],
        &["script", "--seed", "18446744073709551616"],
        &["script", "--seed", "1", "--seed", "1"],
        &["script", "--seed=1", "--seed=2"],
        &["script", "--members", "1"],
        &["--seed", "1", "script"],
        &["generate", "generate"],
        &["generate", "--"],
        &["generate", "--seed"],
        &["generate", "--seed", "01"],
        &["generate", "--seed=18446744073709551616"],
        &["generate", "--members"],
        &["generate", "--members="],
        &["generate", "--members", "0"],
        &["generate", "--members=1048577"],
        &["generate", "--members", "017"],
        &["generate", "--members", "-1"],
        &["generate", "--members=+1"],
        &["generate", "--dim"],
        &["generate", "--dim="],
        &["generate", "--dim=0"],
        &["generate", "--dim", "4097"],
        &["generate", "--dim", "a"],
        &["generate", "--dim=1", "--dim", "1"],
        &["generate", "--members", "1", "--seed", "1", "--members=1"],
        &["generate", "--port", "1"],
        &["generate", "--dim", "1", "2"],
        &["serve", "serve"],
        &["serve", "--port"],
        &["serve", "--port="],
        &["serve", "--port", "0"],
        &["serve", "--port=65536"],
        &["serve", "--port", "080"],
        &["serve", "--workers", "0"],
        &["serve", "--workers=65"],
        &["serve", "--seed", "18446744073709551616"],
        &["serve", "--connections=0"],
        &["serve", "--connections", "4294967296"],
        &["serve", "--connections", "1", "--connections", "1"],
        &["serve", "--port=1", "--workers=1", "--port", "1"],
        &["serve", "--members", "1"],
    ];
    for words in cases {
        let texts = texts(rt.alloc(), words)?;
        let job = read_words(rt.alloc(), texts.as_slice());
        assert_eq!(rt; job, Err(WordsError::BadWords), "{words:?}");
    }
    Ok(())
}
