//! Runs that no search through all entries could end in time.

use hx_outside::{MemFiles, MemSink, MemSource, PlainMaker};
use hx_run::run::run;
use std::alloc::Global;
use std::test::Fail;

/// How many keys the map has, and how many requests ask for them.
const MANY: u32 = 200_000;

/// A path that is a key finds its value by the first backend, and one that begins with a key by the
/// last. Some of either are chosen by a regular expression before, and some are written anew by
/// one.
const CONFIG: &[u8] = b"http-request deny if { path_reg ^/k[0-9]*77$ }\n\
    use_backend %[path,map_str(m)] if { path,map_str(m) -m found }\n\
    use_backend %[path,regsub(^/k,r)] if { path_reg 3/a$ }\n\
    use_backend %[path,map_beg(m,none)]\n";

/// A map of many keys, each with its number in its value.
fn numbered_map(alloc: Global) -> Result<Vec<u8>, Fail> {
    let mut map = Vec::new(alloc);
    for number in 0..MANY {
        map.extend_from_slice(format!(in alloc; "/k{number} v{number}\n")?.as_bytes())?;
    }
    Ok(map)
}

/// A record of as many requests, which ask for all keys in an order of their own, each second for a
/// path below the key, and the answers.
fn requests_and_answers(alloc: Global) -> Result<(Vec<u8>, Vec<u8>), Fail> {
    let mut record = b"conn 1 192.0.2.7 40000 203.0.113.1 80\n".to_vec(alloc)?;
    let mut answers = Vec::new(alloc);
    for number in 0..MANY {
        let key = (u64::from(number) * 7_919 % u64::from(MANY)) as u32;
        let below = if number % 2 == 0 { "" } else { "/a" };
        let head = format!(in alloc; "GET /k{key}{below} HTTP/1.1\r\n\r\n")?;
        let len = head.len();
        record.extend_from_slice(format!(in alloc; "req 1 {len}\n{head}\n")?.as_bytes())?;
        let verdict = verdict(alloc, key, below)?;
        let request = u64::from(number) + 1;
        answers.extend_from_slice(format!(in alloc; "{request} {verdict}\n")?.as_bytes())?;
    }
    Ok((record, answers))
}

/// The verdict on a request for a key, or for a path below it.
fn verdict(alloc: Global, key: u32, below: &str) -> Result<String, Fail> {
    if below.is_empty() && key % 100 == 77 {
        return Ok(format!(in alloc; "deny 403")?);
    }
    if !below.is_empty() && key % 10 == 3 {
        return Ok(format!(in alloc; "pass r{key}{below}")?);
    }
    Ok(format!(in alloc; "pass v{key}")?)
}

#[test]
fn as_many_requests_as_keys_are_answered(rt: HostRuntime) -> Result<(), Fail> {
    let alloc = rt.alloc();
    let (record, answers) = requests_and_answers(alloc)?;
    let held = vec![in alloc;
        (b"c".to_vec(alloc)?, CONFIG.to_vec(alloc)?),
        (b"m".to_vec(alloc)?, numbered_map(alloc)?),
    ]?;
    let words = vec![in alloc; b"run".to_vec(alloc)?, b"c".to_vec(alloc)?]?;
    let mut files = MemFiles::new(held, Vec::new(alloc));
    let mut source = MemSource::new(record, 65_536, Vec::new(alloc));
    let mut sink = MemSink::new(alloc, 65_536, Vec::new(alloc));
    let mut maker = PlainMaker::new();
    let status = run(
        alloc,
        &words,
        &[],
        &mut files,
        &mut source,
        &mut sink,
        &mut maker,
    );
    assert_eq!(rt; status, 0);
    assert_eq!(rt; sink.bytes() == answers.as_slice(), true);
    Ok(())
}
