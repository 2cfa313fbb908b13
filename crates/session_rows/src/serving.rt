//! One session in memory.
ghost use Rattle.std.specs.Prelude.{◌≡◌, ◌<◌, ◌≤◌};

use crate::count_prover::CountProver;
use crate::scripts::{Script, Setting};
use base_core::{ItemList, MemSink, NoMem, NumberList, SESSION_LIMIT, ScriptLink, Steps};
use cic_prover::CicProver;
use lsp_session::serve_within;
use prover_iface::Prover;
use std::alloc::Global;
use std::cell::Cell;
use std::marker::Brand;
use std::rc::Rc;
use std::sync::ledger::{Blank, Ledger};

/// How many bytes a sink takes in all.
const ROOM: usize = 200_000;

/// What came of a session.
#[derive(Drop)]
pub struct Served {
    pub status: u8,
    pub written: Vec<u8>,
    /// Whether a poll, or a put, failed.
    pub faulty: bool,
    /// What the counting prover worked.
    pub worked: u64,
}

/// A session with this prover.
fn serve_items<P: Prover, C: Ledger>(
    alloc: Global,
    items: ItemList,
    setting: &Setting,
    prover: P,
    blank: Blank,
) -> Result<Served, NoMem>
    requires name { blank.name ≡ C.name }
    requires parts { blank.parts ≡ C.parts }
    requires some { 0 < C.parts }
{
    let mut fails = NumberList::new(alloc);
    fails.push(setting.failing_put)?;
    let mut link = ScriptLink::new(alloc, items, setting.polls)?;
    let mut out = MemSink::short(alloc, ROOM, setting.most.max(1), fails)?;
    let mut steps: Steps<C> = Steps::new(blank);
    let status = serve_within(
        alloc,
        &mut link,
        &mut out,
        setting.paced,
        prover,
        setting.limit.min(SESSION_LIMIT),
        &mut steps,
    );
    let mut written = Vec::new(alloc);
    written.extend_from_slice(out.written())?;
    Ok(Served {
        status,
        written,
        faulty: link.faults() > 0 || out.faults() > 0,
        worked: 0,
    })
}

/// The same over a ledger of its own.
fn serve_alone<P: Prover>(
    alloc: Global,
    items: ItemList,
    setting: &Setting,
    prover: P,
) -> Result<Served, NoMem> {
    serve_items::<P, Brand>(alloc, items, setting, prover, Blank::new(1))
}

/// A session with the prover that counts, and what that worked.
fn serve_counting(alloc: Global, items: ItemList, setting: &Setting) -> Result<Served, NoMem> {
    let worked = Rc::new(alloc, Cell::new(0u64))?;
    let prover = CountProver::new(worked.clone()?);
    let served = serve_alone(alloc, items, setting, prover)?;
    Ok(Served {
        worked: worked.get(),
        ..served
    })
}

/// A session as a script has it, in these circumstances.
pub fn serve_script(alloc: Global, script: &Script, setting: &Setting) -> Result<Served, NoMem> {
    let items = script.items(alloc, setting.cut)?;
    if setting.counts {
        serve_counting(alloc, items, setting)
    } else {
        serve_alone(alloc, items, setting, CicProver::new())
    }
}
