//! A link in memory, which gives the items of a list and tells its polls.
ghost use Rattle.std.specs.Prelude.{◌≡◌, ◌++◌, ◌∷◌, [], ◌≤◌, ◌<◌, length, vec_capacity, IfOk, OnOk, IsTrue, ◌↔◌};
ghost use Rattle.base_core.specs.Items.{next_of, next_by, left_from, poll_by, IsGiven, item_bytes};

use crate::{Bytes, Link, List, NoMem, Taken};
use std::alloc::Global;

/// What a link in memory gives next.
#[derive(Debug, Drop)]
pub enum Item {
    /// Bytes, in as many polls as it takes. One without bytes is passed over.
    Piece(Bytes),
    /// Nothing is there yet. A poll that waits passes over it.
    Idle,
    /// The poll fails.
    Fail,
}

/// What a link gives, in order.
pub type ItemList = List<Item>;

/// What a poll gave. Bytes are named by their place, so that noting them takes no memory.
#[derive(Clone, Copy, Debug, Drop)]
enum Given {
    /// The bytes of the piece at a place, from this one up to that.
    Got { at: usize, from: usize, to: usize },
    Idle,
    Fail,
    End,
}

/// A place among items: those before it are used up, and so many bytes of the one there.
#[derive(Clone, Copy, Debug, Drop)]
struct ScriptAt {
    at: usize,
    used: usize,
}

#[derive(Clone, Copy, Debug, Drop)]
struct PollRecord {
    wait: bool,
    given: Given,
}

/// A link in memory, which gives the items of a list and tells its polls. Past the list is the end.
#[derive(Debug, Drop)]
pub struct ScriptLink {
    items: ItemList,
    place: ScriptAt,
    notes: Vec<PollRecord>,
    room: usize,
    faults: u64,
    ghost reserved: { room ≤ vec_capacity notes },
}

fn piece_of(item: &Item) -> &[u8]
    ensures { result.now ≡ item_bytes item.now }
{
    match item {
        Item::Piece(bytes) => bytes.as_slice(),
        _ => &[],
    }
}

/// What a poll for at most `room` bytes gives, and the place behind it.
fn next(items: &[Item], wait: bool, place: ScriptAt, room: usize) -> (Given, ScriptAt)
    requires { 0 < room }
    ensures within { IsGiven items.now wait room result.0 }
    ensures given { next_of (left_from items.now place.at place.used) wait room ≡ next_by items.now result }
{
    let mut used = place.used;
    for at in place.at..items.len() {
        let left = piece_of(&items[at]).len().saturating_sub(used);
        if left > 0 {
            let to = used + room.min(left);
            let given = Given::Got { at, from: used, to };
            return (given, ScriptAt { at, used: to });
        }
        let past = ScriptAt {
            at: at + 1,
            used: 0,
        };
        match &items[at] {
            Item::Idle if !wait => return (Given::Idle, past),
            Item::Fail => return (Given::Fail, past),
            _ => used = 0,
        }
    }
    let past = ScriptAt {
        at: items.len(),
        used: 0,
    };
    (Given::End, past)
}

impl ScriptLink {
    ghost use Rattle.base_core.specs.ScriptLink.{link_items, link_left, link_polls, link_room, link_faults, one_more, Refuses};

    /// Room for so many polls. The link fails at each `Item::Fail`, and when the room is full.
    pub fn new(alloc: Global, items: ItemList, room: usize) -> Result<ScriptLink, NoMem>
        ensures items { IfOk result (λ s. link_left s ≡ items) }
        ensures room { IfOk result (λ s. link_room s ≡ room) }
        ensures begun { IfOk result (λ s. (link_polls s ≡ []) × (link_faults s ≡ 0)) }
    {
        let notes = Vec::with_capacity(alloc, room)?;
        Ok(ScriptLink {
            items,
            place: ScriptAt { at: 0, used: 0 },
            notes,
            room,
            faults: 0,
        })
    }

    /// How many polls have failed.
    pub fn faults(&self) -> u64
        ensures { result ≡ link_faults self.now }
    {
        self.faults
    }

    fn is_full(&self) -> bool
        ensures full { IsTrue result ↔ (link_room self.now ≤ length (link_polls self.now)) }
    {
        self.notes.len() >= self.room
    }

    fn fail(&mut self) -> Taken
        ensures refused { Refuses result self.old self.new }
        ensures later { link_faults self.old ≤ link_faults self.new }
        ensures room { link_room self.new ≡ link_room self.old }
    {
        self.faults = self.faults.saturating_add(1);
        Taken::Failed
    }

    /// Notes a poll and goes to the place behind what it gave.
    fn note(&mut self, wait: bool, given: Given, place: ScriptAt)
        requires { length (link_polls self.old) < link_room self.old }
        ensures items { link_items self.new ≡ link_items self.old }
        ensures room { link_room self.new ≡ link_room self.old }
        ensures faults { link_faults self.new ≡ link_faults self.old }
        ensures left { link_left self.new ≡ left_from (link_items self.old) place.at place.used }
        ensures polls { link_polls self.new ≡ link_polls self.old ++ poll_by (link_items self.old) wait given ∷ [] }
    {
        self.place = place;
        match self.notes.push(PollRecord { wait, given }) {
            Ok(()) => {}
            Err(_) => unreachable!(),
        }
    }

    fn next(&self, wait: bool, asked: usize) -> (Given, ScriptAt)
        requires { 0 < asked }
        ensures within { IsGiven (link_items self.now) wait asked result.0 }
        ensures given { next_of (link_left self.now) wait asked ≡ next_by (link_items self.now) result }
    {
        next(self.items.as_slice(), wait, self.place, asked)
    }
}

impl Link for ScriptLink {
    ghost use Rattle.std.specs.Prelude.{Some};
    ghost use Rattle.base_core.specs.Link.{TakenFrom, IsCalmPoll};
    ghost use Rattle.base_core.specs.Faults.{Rose};
    ghost use Rattle.base_core.specs.ScriptLink.{link_polls, link_faults, Polls};

    ghost polls = { λ s. Some (link_polls s) };

    ghost faults = { λ s. link_faults s };

    fn poll(&mut self, wait: bool, buf: &mut [u8]) -> Taken
        requires { 0 < length buf.old }
        ensures told { TakenFrom result wait buf.new (Some (link_polls self.old)) (Some (link_polls self.new)) }
        ensures later { link_faults self.old ≤ link_faults self.new }
        ensures failed { result ≡ Taken.Failed → Rose (link_faults self.old) (link_faults self.new) }
        ensures calm { IsCalmPoll result (link_faults self.old) (link_faults self.new) }

        // It gives the next items while there is room to note a poll, and else fails.
        ensures exact { Polls wait (length buf.old) result self.old self.new }
    {
        if self.is_full() {
            return self.fail();
        }
        let (given, place) = self.next(wait, buf.len());
        self.note(wait, given, place);
        match given {
            Given::Got { at, from, to } => {
                let count = to - from;
                let piece = piece_of(&self.items.as_slice()[at]);
                buf[..count].copy_from_slice(&piece[from..to]);
                Taken::Got(count)
            }
            Given::Idle => Taken::Idle,
            Given::Fail => {
                self.faults = self.faults.saturating_add(1);
                Taken::Failed
            }
            Given::End => Taken::End,
        }
    }
}
