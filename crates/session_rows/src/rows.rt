//! The rows: a word and what stands behind it.
use crate::escapes::read_bytes;
use crate::faults::Fault;
use crate::scripts::{Cut, Script};
use crate::trials::{Trial, told_each, told_once};
use std::alloc::Global;

fn number(word: &str) -> Result<u32, Fault> {
    match word.parse::<u32>() {
        Ok(number) => Ok(number),
        Err(_) => Err(Fault::NoRow),
    }
}

/// A session of its own, whose link gives nothing yet.
fn begin(alloc: Global, script: &mut Script, pace: &str) -> Result<(), Fault> {
    *script = Script::new(alloc);
    match pace {
        "paced" => script.setting.paced = true,
        "unpaced" => {}
        _ => return Err(Fault::NoRow),
    }
    Ok(())
}

/// Which prover is handed in.
fn choose(script: &mut Script, prover: &str) -> Result<(), Fault> {
    match prover {
        "count" => script.setting.counts = true,
        "cic" => script.setting.counts = false,
        _ => return Err(Fault::NoRow),
    }
    Ok(())
}

/// A text so many times, in one part.
fn repeat(alloc: Global, script: &mut Script, words: &str) -> Result<(), Fault> {
    let Some((count, text)) = words.split_once(' ') else {
        return Err(Fault::NoRow);
    };
    let once = read_bytes(alloc, text)?;
    let mut bytes = Vec::new(alloc);
    for _ in 0..number(count)? {
        bytes.extend_from_slice(once.as_slice())?;
    }
    Ok(script.add_part(bytes)?)
}

/// Circumstances that are numbers.
fn set(script: &mut Script, word: &str, count: u32) -> Result<(), Fault> {
    match word {
        "limit" => script.setting.limit = u64::from(count),
        "most" => script.setting.most = count as usize,
        "put" => script.setting.failing_put = count,
        "pieces" => script.setting.cut = Cut::Pieces(count as usize),
        "cut" => script.setting.cut = Cut::At(count as usize),
        _ => return Err(Fault::NoRow),
    }
    Ok(())
}

/// A word with others behind it.
fn take(alloc: Global, script: &mut Script, word: &str, words: &str) -> Result<(), Fault> {
    match word {
        "session" => begin(alloc, script, words),
        "prover" => choose(script, words),
        "body" => Ok(script.add_body(alloc, read_bytes(alloc, words)?.as_slice())?),
        "bytes" => Ok(script.add_part(read_bytes(alloc, words)?)?),
        "many" => repeat(alloc, script, words),
        _ => set(script, word, number(words)?),
    }
}

/// What is told of a row.
pub fn answer(alloc: Global, script: &mut Script, row: &str) -> Result<String, Fault> {
    match row {
        "" => return Err(Fault::Blank),
        "idle" => script.add_idle()?,
        "fail" => script.add_fail()?,
        "parts" => script.setting.cut = Cut::Parts,
        "serve" => return Ok(told_once(alloc, script)?),
        "each poll" => return Ok(told_each(alloc, script, Trial::Poll)?),
        "each put" => return Ok(told_each(alloc, script, Trial::Put)?),
        "each cut" => return Ok(told_each(alloc, script, Trial::Cut)?),
        _ => match row.split_once(' ') {
            Some(("--", _)) => {}
            Some((word, words)) => take(alloc, script, word, words)?,
            None => return Err(Fault::NoRow),
        },
    }
    Err(Fault::Blank)
}
