//! Environments: globals in the order of their declaration, found by name and by place.
ghost use Rattle.std.specs.Prelude.{◌≡◌, ◌+◌, ◌^◌, ◌≤◌, ◌<◌, [], ◌∷◌, ◌++◌, length, slice_get, Some, IfOk, IfSome};
ghost use Rattle.std.specs.Option.{option_copied};
ghost use Rattle.std.specs.Cmp.Lexicographic.{slice_cmp};
ghost use Rattle.std.specs.Ordering.{nat_cmp};
ghost use Rattle.shared_map.specs.Entries.{IsInOrder};
ghost use Rattle.base_core.specs.Answers.{Gives};
ghost use Rattle.cic_rules.specs.Names.{rank_of, stands_before};
ghost use Rattle.cic_rules.specs.Environments.{entry_at, decl_at, place_in, entered, all_entered, slotted, IsEnvironment, IsNew, AreNew, IsSlotAt, AreSlots, MayEnter};
ghost use Rattle.cic_rules.specs.Shapes.{shape_at, kept_shape};
ghost use Rattle.cic_rules.specs.EnterFamily.{MayEnterFamily};

use crate::decls::InductiveDecl;
use crate::entries::{Entry, EntryList};
use crate::shapes::{FamilyShape, shape_if_any};
use base_core::{Limit, NoMem, Stop, Text};
use shared_map::SharedList;
use std::alloc::Global;
use std::cmp::Ordering;
use std::marker::Model;

/// The globals in the order of their declaration, which contracts see as a list, the oldest first:
/// the place of a global is its position. A change gives a new environment, and the old one stays.
#[derive(Drop)]
pub struct GlobalEnv {
    slots: SharedList<Slot>,
    /// For each global what reduction asks of it, where it is an inductive type.
    shapes: SharedList<Option<FamilyShape>>,
    /// Each name with its place, by names.
    index: SharedList<(Text, u32)>,
}

/// A global, and the declaration that it came from where it is an inductive type.
#[derive(Drop)]
pub struct Slot {
    entry: Entry,
    decl: Option<InductiveDecl>,
}

/// The greatest number of entries.
const LEN_LIMIT: usize = 1 << 31;

impl Model for GlobalEnv {
    ghost use Rattle.std.specs.Prelude.{List};
    ghost use Rattle.cic_rules.specs.declared.env.Slot.{Slot};
    ghost use Rattle.std.specs.Coded.{coded_list};
    ghost use Rattle.cic_rules.specs.contracts.env.Slot as slot;

    ghost Value = { List Slot };

    ghost coded = { coded_list slot.the_row.coded };

    ghost view = { λ e. e.slots };

    ghost use Rattle.cic_rules.specs.Shapes.{IsKept};

    ghost invariant = { λ e. IsKept e.slots e.index e.shapes };
}

impl GlobalEnv {
    #[tactic(auto, using(crate::proofs::ShapeLaws::shapes_none))]
    pub fn empty() -> GlobalEnv
        ensures { result ≡ [] }
    {
        GlobalEnv {
            slots: SharedList::empty(),
            shapes: SharedList::empty(),
            index: SharedList::empty(),
        }
    }

    pub fn len(&self) -> u32
        ensures count { result ≡ length self.now }
        ensures environment { IsEnvironment self.now }
    {
        let _slots = &self.slots;
        self.slots.len() as u32
    }

    /// The global at a place.
    pub fn get(&self, place: u32) -> Option<&Entry>
        ensures entry { option_copied result ≡ entry_at self.now place }
        ensures environment { IsEnvironment self.now }
    {
        match self.slots.get(place as usize) {
            Some(slot) => Some(&slot.entry),
            None => None,
        }
    }

    /// The declaration of the inductive type at a place. There is none exactly where no inductive
    /// type stands there.
    pub fn inductive(&self, place: u32) -> Option<&InductiveDecl>
        ensures decl { option_copied result ≡ decl_at self.now place }
        ensures environment { IsEnvironment self.now }
    {
        match self.slots.get(place as usize) {
            Some(slot) => slot.decl.as_ref(),
            None => None,
        }
    }

    /// What reduction asks of the inductive type at a place. It was told once, when the type was
    /// entered.
    #[tactic(auto, using(crate::proofs::ShapeLaws::shape_found))]
    pub fn shape(&self, place: u32) -> Option<&FamilyShape>
        ensures { option_copied result ≡ shape_at self.now place }
    {
        shape_in(&self.shapes, place)
    }

    /// The place of the global with this name, in a time that is logarithmic in the number of
    /// globals.
    #[tactic(auto, using(crate::proofs::PlaceLaws::place_below))]
    pub fn place_of(&self, name: &Text) -> Option<u32>
        ensures place { result ≡ place_in self.now name.now }
        ensures within { IfSome result (λ place. place < length self.now) }
    {
        self.find(name)
    }

    fn find(&self, name: &Text) -> Option<u32>
        ensures { result ≡ place_in self.now name.now }
    {
        let found = self.index.get(rank(&self.index, name))?;
        match name.as_str().cmp(found.0.as_str()) {
            Ordering::Equal => Some(found.1),
            _ => None,
        }
    }

    /// The same environment once more, in one step.
    pub fn share(&self) -> Result<GlobalEnv, NoMem>
        ensures { IfOk result (λ e. e ≡ self.now) }
    {
        Ok(GlobalEnv {
            slots: self.slots.share()?,
            shapes: self.shapes.share()?,
            index: self.index.share()?,
        })
    }

    /// The environment with one more global, unless it has 2^31 of them.
    #[tactic(auto, using(crate::proofs::PlaceLaws::own_slot_is))]
    pub fn with_entry(&self, alloc: Global, e: Entry) -> Result<GlobalEnv, Stop>
        requires { MayEnter self.now e }
        ensures { Gives result (entered self.now e) }
    {
        if self.slots.len() >= LEN_LIMIT {
            return Err(Stop::Out(Limit::SizeLimit));
        }
        let slot = Slot {
            entry: e,
            decl: None,
        };
        let env = self.with_slot(alloc, slot)?;
        Ok(env)
    }

    /// The environment with an inductive type, its constructors and its eliminators, unless there
    /// would be more than 2^31 globals.
    pub fn with_inductive(
        &self,
        alloc: Global,
        d: InductiveDecl,
        entries: EntryList,
    ) -> Result<GlobalEnv, Stop>
        requires { MayEnterFamily self.now d entries }
        ensures { Gives result (all_entered self.now (slotted (Some d) entries)) }
    {
        let entries = entries.into_vec();
        if entries.len() > LEN_LIMIT - self.slots.len() {
            return Err(Stop::Out(Limit::SizeLimit));
        }
        let env = self.with_slots(alloc, Some(d), entries)?;
        Ok(env)
    }

    fn with_slots(
        &self,
        alloc: Global,
        decl: Option<InductiveDecl>,
        entries: Vec<Entry>,
    ) -> Result<GlobalEnv, NoMem>
        requires room { length self.now + length entries.items ≤ 2 ^ 31 }
        requires new { AreNew self.now (slotted decl entries.items) }
        requires slots { AreSlots (length self.now) (slotted decl entries.items) }
        ensures { IfOk result (λ e. e ≡ self.now ++ slotted decl entries.items) }
    {
        let mut env = self.share()?;
        let mut decl = decl;
        for entry in entries {
            let slot = Slot {
                entry,
                decl: decl.take(),
            };
            env = env.into_larger(alloc, slot)?;
        }
        Ok(env)
    }

    /// The old environment is let go.
    fn into_larger(self, alloc: Global, slot: Slot) -> Result<GlobalEnv, NoMem>
        requires room { length self < 2 ^ 31 }
        requires new { IsNew self slot.entry.name }
        requires slot { IsSlotAt (length self) slot }
        ensures { IfOk result (λ e. e ≡ self ++ (slot ∷ [])) }
    {
        self.with_slot(alloc, slot)
    }

    fn with_slot(&self, alloc: Global, slot: Slot) -> Result<GlobalEnv, NoMem>
        requires room { length self.now < 2 ^ 31 }
        requires new { IsNew self.now slot.entry.name }
        requires slot { IsSlotAt (length self.now) slot }
        ensures { IfOk result (λ e. e ≡ self.now ++ (slot ∷ [])) }
    {
        let place = self.slots.len() as u32;
        let name = slot.entry.name.share()?;
        let at = rank(&self.index, &name);
        let index = self.index.with_insert(alloc, at, (name, place))?;
        let shape = shape_if_any(alloc, place, &slot.decl)?;
        let shapes = self.shapes.with_last(alloc, shape)?;
        let slots = self.slots.with_last(alloc, slot)?;
        Ok(GlobalEnv {
            slots,
            shapes,
            index,
        })
    }
}

fn shape_in(shapes: &SharedList<Option<FamilyShape>>, place: u32) -> Option<&FamilyShape>
    ensures { option_copied result ≡ kept_shape (slice_get shapes.now place) }
{
    match shapes.get(place as usize) {
        Some(shape) => shape.as_ref(),
        None => None,
    }
}

/// How many names stand before this one.
fn rank(index: &SharedList<(Text, u32)>, name: &Text) -> usize
    requires { IsInOrder (slice_cmp nat_cmp) index.now }
    ensures rank { result ≡ rank_of (slice_cmp nat_cmp) index.now name.now }
    ensures within { result ≤ length index.now }
{
    let mut from = 0;
    let mut to = index.len();
    while from < to {
        let at = from + (to - from) / 2;
        if is_before(index, at, name) {
            from = at + 1;
        } else {
            to = at;
        }
    }
    from
}

fn is_before(index: &SharedList<(Text, u32)>, at: usize, name: &Text) -> bool
    ensures { result ≡ stands_before (slice_cmp nat_cmp) (slice_get index.now at) name.now }
{
    match index.get(at) {
        Some(found) => matches!(found.0.as_str().cmp(name.as_str()), Ordering::Less),
        None => false,
    }
}
