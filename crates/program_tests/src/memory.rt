//! Records of at most 16 MiB that would take terabytes if each offset had its own copy: all pairs of a result lead to one
//! block, all instances of a domain to one name. Both are read, and the test's own memory stays a few times theirs.
use archive_meta::MetaState;
use pcp_base::NoMemory;
use pcp_model::put_word;
use result_form::decode;
use std::alloc::Global;
use std::fs;
use std::rt::Files;
use std::test::Fail;

// How many pairs, or instances, lead to one offset.
const PAIRS: u32 = 1_000_000;

fn put_words(out: &mut Vec<u8>, words: &[u32]) -> Result<(), NoMemory> {
    for word in words {
        put_word(out, *word)?;
    }
    Ok(())
}

// The payload of a result of 16,777,208 bytes: one set by block, whose pairs lead to the block behind it.
fn shared_block(alloc: Global) -> Result<Vec<u8>, NoMemory> {
    let mut out = Vec::new(alloc);
    put_words(&mut out, &[100, 0, 1, 0x1180_0402, PAIRS, 1])?;
    for instance in 0..PAIRS {
        put_words(&mut out, &[instance, 2_000_009])?;
    }
    put_word(&mut out, 0x0600_0000 + 8_777_184)?;
    out.resize(16_777_208, b'x')?;
    Ok(out)
}

// A framed domain of 16,777,216 bytes, whose instances have the table's one name.
fn shared_name(alloc: Global) -> Result<Vec<u8>, NoMemory> {
    let mut out = Vec::new(alloc);
    put_words(&mut out, &[16_777_216, 2, 100, 0, 0x1180_0401, PAIRS])?;
    for instance in 0..PAIRS {
        put_word(&mut out, instance)?;
    }
    for _ in 0..PAIRS {
        put_word(&mut out, 0)?;
    }
    out.resize(16_777_211, b'x')?;
    out.push(0)?;
    put_word(&mut out, 16_777_216)?;
    Ok(out)
}

fn is_result_read(alloc: Global) -> Result<bool, NoMemory> {
    let bytes = shared_block(alloc)?;
    Ok(decode(alloc, &bytes).is_ok())
}

fn is_domain_read(alloc: Global) -> Result<bool, NoMemory> {
    let bytes = shared_name(alloc)?;
    Ok(MetaState::read(alloc, &bytes).is_ok())
}

// The greatest memory of this process so far, in KiB. None where the system doesn't tell it.
fn peak<R: Files + AllocGlobal>(rt: &R) -> Option<u64> {
    let text = fs::read_to_string(rt, "/proc/self/status").ok()?;
    for line in text.lines() {
        if let Some(rest) = line.strip_prefix("VmHWM:") {
            return rest.trim().strip_suffix(" kB")?.parse().ok();
        }
    }
    None
}

// Each test has a process of its own, so that its memory is this test's alone. A try without proof gives back nothing that is let go,
// so it takes more than this there.
#[test]
fn memory_goes_with_the_bytes(rt: HostRuntime) -> Result<(), Fail> {
    assert!(rt; is_result_read(rt.alloc())?);
    assert!(rt; is_domain_read(rt.alloc())?);
    assert!(rt; peak(&rt).unwrap_or(u64::MAX) <= 81_920);
    Ok(())
}
