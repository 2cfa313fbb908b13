//! What a session in memory is like.
use base_core::{Bytes, Item, ItemList, NoMem, SESSION_LIMIT};
use rpc_frames::write_frame;
use std::alloc::Global;

/// How the bytes of a link are cut, between two pauses.
#[derive(Clone, Copy, Debug)]
pub enum Cut {
    /// As the row has them.
    Parts,
    /// All of them into pieces of a size.
    Pieces(usize),
    /// All of them in two.
    At(usize),
}

/// A session's circumstances.
#[derive(Clone, Copy, Debug)]
pub struct Setting {
    pub paced: bool,
    /// Whether the prover counts sentences, or is that of the calculus.
    pub counts: bool,
    /// How many bytes it takes.
    pub limit: u64,
    /// How many polls the link notes.
    pub polls: usize,
    /// How many bytes the sink takes at a call.
    pub most: usize,
    /// The call at which the sink fails, numbered from 1.
    pub failing_put: u32,
    pub cut: Cut,
}

/// What a link gives: bytes, or a pause.
#[derive(Debug, Drop)]
enum Part {
    Bytes(Vec<u8>),
    Idle,
    Fail,
}

/// A session, and what its link gives.
#[derive(Debug, Drop)]
pub struct Script {
    pub setting: Setting,
    parts: Vec<Part>,
}

/// A session of which nothing is said.
const PLAIN: Setting = Setting {
    paced: false,
    counts: false,
    limit: SESSION_LIMIT,
    polls: 20_000,
    most: 1_000_000,
    failing_put: 0,
    cut: Cut::Parts,
};

/// Hands bytes on as pieces, and keeps none.
fn flush(alloc: Global, items: &mut ItemList, bytes: &mut Vec<u8>, cut: Cut) -> Result<(), NoMem> {
    match cut {
        Cut::Parts => items.push(Item::Piece(Bytes::copy(alloc, bytes.as_slice())?))?,
        Cut::Pieces(size) => {
            for piece in bytes.as_slice().chunks(size.max(1)) {
                items.push(Item::Piece(Bytes::copy(alloc, piece)?))?;
            }
        }
        Cut::At(place) => {
            let (front, back) = bytes.as_slice().split_at(place.min(bytes.len()));
            items.push(Item::Piece(Bytes::copy(alloc, front)?))?;
            items.push(Item::Piece(Bytes::copy(alloc, back)?))?;
        }
    }
    bytes.clear();
    Ok(())
}

impl Script {
    /// A link that gives nothing.
    pub fn new(alloc: Global) -> Script {
        Script {
            setting: PLAIN,
            parts: Vec::new(alloc),
        }
    }

    /// Bytes more, in a part of their own.
    pub fn add_part(&mut self, bytes: Vec<u8>) -> Result<(), NoMem> {
        Ok(self.parts.push(Part::Bytes(bytes))?)
    }

    /// The frame of a body more.
    pub fn add_body(&mut self, alloc: Global, body: &[u8]) -> Result<(), NoMem> {
        let frame = write_frame(alloc, body)?;
        let mut bytes = Vec::new(alloc);
        bytes.extend_from_slice(frame.as_slice())?;
        self.add_part(bytes)
    }

    /// Nothing comes.
    pub fn add_idle(&mut self) -> Result<(), NoMem> {
        Ok(self.parts.push(Part::Idle)?)
    }

    /// A poll fails.
    pub fn add_fail(&mut self) -> Result<(), NoMem> {
        Ok(self.parts.push(Part::Fail)?)
    }

    /// How many bytes it gives.
    pub fn byte_count(&self) -> usize {
        let mut count = 0usize;
        for part in &self.parts {
            if let Part::Bytes(bytes) = part {
                count = count.saturating_add(bytes.len());
            }
        }
        count
    }

    /// What the link gives, cut so.
    pub fn items(&self, alloc: Global, cut: Cut) -> Result<ItemList, NoMem> {
        let mut items = ItemList::new(alloc);
        let mut gathered = Vec::new(alloc);
        for part in &self.parts {
            match part {
                Part::Bytes(bytes) => {
                    if let Cut::Parts = cut {
                        flush(alloc, &mut items, &mut gathered, cut)?;
                    }
                    gathered.extend_from_slice(bytes.as_slice())?;
                }
                Part::Idle => {
                    flush(alloc, &mut items, &mut gathered, cut)?;
                    items.push(Item::Idle)?;
                }
                Part::Fail => {
                    flush(alloc, &mut items, &mut gathered, cut)?;
                    items.push(Item::Fail)?;
                }
            }
        }
        flush(alloc, &mut items, &mut gathered, cut)?;
        Ok(items)
    }
}
