//! `gen N`: small sizes, the greatest one, words that are no size, and a sink that fails.

use hx_outside::{MemFiles, MemSink, MemSource, PlainMaker};
use hx_run::run::run;
use std::alloc::Global;
use std::test::Fail;

/// The status of `gen WORD` and what it writes, eight bytes at a time, to a sink of which the
/// writes with these numbers fail.
fn generated(alloc: Global, word: &[u8], fails: Vec<u64>) -> Result<(u8, Vec<u8>), Fail> {
    let words = vec![in alloc; b"gen".to_vec(alloc)?, word.to_vec(alloc)?]?;
    let mut files = MemFiles::new(Vec::new(alloc), Vec::new(alloc));
    let mut source = MemSource::new(Vec::new(alloc), 1, Vec::new(alloc));
    let mut sink = MemSink::new(alloc, 8, fails);
    let mut maker = PlainMaker::new();
    let status = run(
        alloc,
        &words,
        &[],
        &mut files,
        &mut source,
        &mut sink,
        &mut maker,
    );
    Ok((status, sink.bytes().to_vec(alloc)?))
}

/// Words that are sizes, and their summaries, which a program in Python worked out by itself.
const SUMMARIES: [(&[u8], &[u8]); 4] = [
    (
        b"001",
        b"events 3\npass 1\ndeny 0\n\
            sha256 b6a45c0aa9dc11a16edd13c5342b1d7f7aef0dfa84cec11a271b78a1fb9c40ce\n",
    ),
    (
        b"2",
        b"events 12\npass 2\ndeny 0\n\
            sha256 6f96ab8752327fc18777243e41adc4dda5e1efdfa15087406ccc9b359a38d703\n",
    ),
    (
        b"1000",
        b"events 4024\npass 994\ndeny 6\n\
            sha256 45f2965880577f95e93290eae3f89d5bb87075307e75f56f3014c2141ca61011\n",
    ),
    (
        b"200000",
        b"events 804004\npass 102837\ndeny 97163\n\
            sha256 ed2dfda2c932d6dcbdcd7f55207afbe42717c915d79e519f4b552ad057c2f612\n",
    ),
];

#[test]
fn generated_inputs_are_summarized(rt: HostRuntime) -> Result<(), Fail> {
    for (word, summary) in SUMMARIES {
        let (status, text) = generated(rt.alloc(), word, Vec::new(rt.alloc()))?;
        assert_eq!(rt; status, 0);
        assert_eq!(rt; text.as_slice() == summary, true);
    }
    Ok(())
}

#[test]
fn other_words_are_no_size(rt: HostRuntime) -> Result<(), Fail> {
    for word in [b"0".as_slice(), b"200001", b"x", b"", b"+1"] {
        let (status, text) = generated(rt.alloc(), word, Vec::new(rt.alloc()))?;
        assert_eq!(rt; status, 2);
        assert_eq!(rt; text.is_empty(), true);
    }
    Ok(())
}

#[test]
fn a_summary_ends_where_a_write_fails(rt: HostRuntime) -> Result<(), Fail> {
    let alloc = rt.alloc();
    let (status, text) = generated(alloc, b"2", vec![in alloc; 2u64]?)?;
    assert_eq!(rt; status, 6);
    assert_eq!(rt; text.as_slice(), b"events 1".as_slice());
    Ok(())
}
