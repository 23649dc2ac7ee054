// The list of roots, as objects lose and get containers. Where the numbers rise a root is found by halves: so they do unless a model
// was made of parts in another order.
ghost use Rattle.std.specs.Prelude.{◌≡◌, ◌+◌, ◌-◌, ◌≤◌, ◌<◌, ℕ, List, [], ◌∷◌, ◌++◌, true, length, drop, map, nat_lt, position, slice_index_or, IfOk, IfSome, MatchOption, OnOk, OnErr};
ghost use Rattle.std.specs.List.{insert, position_or_len, remove};
ghost use Rattle.std.specs.List.Sorted.{IsNonDecreasing};
ghost use Rattle.std.specs.Vec.{vec_len, vec_capacity};
ghost use Rattle.atl_base.specs.declared.numbers.ObjId.{ObjId};
ghost use Rattle.model_store.specs.declared.roots.RootStep.TheVariants.{TakenIn};
ghost use Rattle.model_store.specs.Drafts.{settled};
ghost use Rattle.model_store.specs.Roots.{is_among, without_all, IsKnown, Rise};
ghost use Rattle.model_store.specs.Writes.{with_root, without_root};

use atl_base::numbers::ObjId;
use std::alloc::{AllocError, Global};

// What the roots go through.
#[derive(Clone, Copy, Debug)]
pub(crate) enum RootStep {
    // an object loses its container
    Freed(ObjId),
    // an object gets one
    TakenIn(ObjId),
}

// Contracts see it as the list. Its head may have gone: so a root near the front is taken out in as little time as one near the end.
#[derive(Drop)]
pub(crate) struct Roots {
    list: Vec<ObjId>,
    known: Known,
}

impl std::marker::Model for Roots {
    ghost use Rattle.std.specs.Prelude.{List, drop};
    ghost use Rattle.atl_base.specs.declared.numbers.ObjId.{ObjId};
    ghost use Rattle.model_store.specs.Roots.{IsKnown};

    ghost Value = { List ObjId };

    ghost view = { λ r. drop r.known.from r.list.items };

    ghost invariant = { λ r. IsKnown r.list.items r.known.from r.known.rise };
}

// Where the roots begin in the list, and whether their numbers are known to rise.
#[derive(Clone, Copy)]
pub(crate) struct Known {
    from: usize,
    rise: bool,
}

// So many steps or more are taken in one walk.
const MANY: usize = 8;

// The roots of a list.
fn live(list: &[ObjId], from: usize) -> &[ObjId]
    requires { from ≤ length list.now }
    ensures { result.now ≡ drop from list.now }
{
    &list[from..]
}

// Whether the numbers rise.
fn rise(roots: &[ObjId]) -> bool
    ensures { result ≡ true → Rise roots.now }
{
    for at in 1..roots.len() {
        if roots[at].0 <= roots[at - 1].0 {
            return false;
        }
    }
    true
}

// The first root of greater number.
fn first_greater(roots: &[ObjId], o: ObjId) -> Option<usize>
    ensures { result ≡ position (λ r. nat_lt o.0 r.0) roots.now }
{
    roots.iter().position(|r| o.0 < r.0)
}

// Its place, or the end.
fn place_by_steps(roots: &[ObjId], o: ObjId) -> usize
    ensures place { result ≡ position_or_len (λ r. nat_lt o.0 r.0) roots.now }
    ensures within { result ≤ length roots.now }
{
    match first_greater(roots, o) {
        Some(at) => at,
        None => roots.len(),
    }
}

// The same by halves.
fn place_by_halves(roots: &[ObjId], o: ObjId) -> usize
    requires { Rise roots.now }
    ensures place { result ≡ position_or_len (λ r. nat_lt o.0 r.0) roots.now }
    ensures within { result ≤ length roots.now }
{
    roots.partition_point(|r| r.0 <= o.0)
}

// The place for a root more.
fn place_for(roots: &[ObjId], rise: bool, o: ObjId) -> usize
    requires { rise ≡ true → Rise roots.now }
    ensures place { result ≡ position_or_len (λ r. nat_lt o.0 r.0) roots.now }
    ensures within { result ≤ length roots.now }
{
    if rise {
        place_by_halves(roots, o)
    } else {
        place_by_steps(roots, o)
    }
}

// Whether a number is greater than that of the root before a place.
fn is_above(roots: &[ObjId], at: usize, o: ObjId) -> bool
    requires { at ≤ length roots.now }
    ensures { result ≡ true → (d : ObjId) → 0 < at → (slice_index_or roots.now (at - 1) d).0 < o.0 }
{
    at == 0 || roots[at - 1].0 < o.0
}

// Whether the numbers rise, and still do with one more at a place, where those after it are greater.
fn still_rise(roots: &[ObjId], rise: bool, at: usize, o: ObjId) -> bool
    requires within { at ≤ length roots.now }
    requires rise { rise ≡ true → Rise roots.now }
    requires below { (d : ObjId) → at < length roots.now → o.0 < (slice_index_or roots.now at d).0 }
    ensures { result ≡ true → Rise (insert roots.now at o) }
{
    rise && is_above(roots, at, o)
}

// A root more, before the first of greater number.
fn insert_root(list: &mut Vec<ObjId>, known: Known, o: ObjId) -> Known
    requires room { vec_len list.old < vec_capacity list.old }
    requires known { IsKnown list.old.items known.from known.rise }
    ensures items { drop result.from list.new.items ≡ with_root o (drop known.from list.old.items) }
    ensures known { IsKnown list.new.items result.from result.rise }
    ensures len { vec_len list.new ≤ vec_len list.old + 1 }
    ensures capacity { vec_capacity list.old ≤ vec_capacity list.new }
{
    let from = known.from;
    let roots = live(list, from);
    let at = place_for(roots, known.rise, o);
    let rise = still_rise(roots, known.rise, at, o);
    let _ = list.insert(from + at, o);
    Known { from, rise }
}

// The place of the first root of this number or a greater one.
fn lower(roots: &[ObjId], o: ObjId) -> usize
    requires { Rise roots.now }
    ensures below { (k : ℕ) (d : ObjId) → k < result → (slice_index_or roots.now k d).0 < o.0 }
    ensures rest { (k : ℕ) (d : ObjId) → result ≤ k → k < length roots.now → o.0 ≤ (slice_index_or roots.now k d).0 }
{
    roots.partition_point(|r| r.0 < o.0)
}

// The place of a root, where it is one.
fn find(roots: &[ObjId], o: ObjId) -> Option<usize>
    requires { Rise roots.now }
    ensures { MatchOption result (without_root o roots.now ≡ roots.now)
        (λ at. (at < length roots.now) × (remove roots.now at ≡ without_root o roots.now)) }
{
    let at = lower(roots, o);
    if at < roots.len() && roots[at].0 == o.0 {
        return Some(at);
    }
    None
}

// The root at a place less. The shorter side moves.
fn remove_at(list: &mut Vec<ObjId>, from: usize, at: usize) -> usize
    requires { from + at < length list.old.items }
    ensures items { drop result list.new.items ≡ remove (drop from list.old.items) at }
    ensures within { result ≤ length list.new.items }
    ensures len { vec_len list.new ≤ vec_len list.old }
    ensures capacity { vec_capacity list.old ≤ vec_capacity list.new }
{
    let place = from + at;
    if at < list.len() - place {
        list.copy_within(from..place, from + 1);
        return from + 1;
    }
    let _ = list.remove(place);
    from
}

// A root less, where the numbers rise.
fn remove_by_halves(list: &mut Vec<ObjId>, from: usize, o: ObjId) -> usize
    requires within { from ≤ length list.old.items }
    requires rise { Rise (drop from list.old.items) }
    ensures items { drop result list.new.items ≡ without_root o (drop from list.old.items) }
    ensures within { result ≤ length list.new.items }
    ensures len { vec_len list.new ≤ vec_len list.old }
    ensures capacity { vec_capacity list.old ≤ vec_capacity list.new }
{
    match find(live(list, from), o) {
        Some(at) => remove_at(list, from, at),
        None => from,
    }
}

// The roots alone in the list.
fn close(list: &mut Vec<ObjId>, from: usize)
    requires { from ≤ length list.old.items }
    ensures items { list.new.items ≡ drop from list.old.items }
    ensures len { vec_len list.new ≤ vec_len list.old }
    ensures capacity { vec_capacity list.old ≤ vec_capacity list.new }
{
    let left = list.len() - from;
    list.rotate_left(from);
    list.truncate(left);
}

// A root less, where the numbers may not rise.
fn remove_by_steps(list: &mut Vec<ObjId>, from: usize, o: ObjId)
    requires { from ≤ length list.old.items }
    ensures items { list.new.items ≡ without_root o (drop from list.old.items) }
    ensures len { vec_len list.new ≤ vec_len list.old }
    ensures capacity { vec_capacity list.old ≤ vec_capacity list.new }
{
    close(list, from);
    list.retain(|r| r.0 != o.0);
}

// A root less.
fn remove_root(list: &mut Vec<ObjId>, known: Known, o: ObjId) -> Known
    requires { IsKnown list.old.items known.from known.rise }
    ensures items { drop result.from list.new.items ≡ without_root o (drop known.from list.old.items) }
    ensures known { IsKnown list.new.items result.from result.rise }
    ensures len { vec_len list.new ≤ vec_len list.old }
    ensures capacity { vec_capacity list.old ≤ vec_capacity list.new }
{
    let Known { from, rise } = known;
    if rise {
        let from = remove_by_halves(list, from, o);
        return Known { from, rise };
    }
    remove_by_steps(list, from, o);
    Known { from: 0, rise }
}

// One step.
fn take_step(list: &mut Vec<ObjId>, known: Known, step: RootStep) -> Known
    requires room { vec_len list.old < vec_capacity list.old }
    requires known { IsKnown list.old.items known.from known.rise }
    ensures items { drop result.from list.new.items ≡ settled (step ∷ []) (drop known.from list.old.items) }
    ensures known { IsKnown list.new.items result.from result.rise }
    ensures len { vec_len list.new ≤ vec_len list.old + 1 }
    ensures capacity { vec_capacity list.old ≤ vec_capacity list.new }
{
    match step {
        RootStep::Freed(o) => insert_root(list, known, o),
        RootStep::TakenIn(o) => remove_root(list, known, o),
    }
}

// All steps, where there is room for a root more at each.
fn take_steps(list: &mut Vec<ObjId>, known: Known, steps: &[RootStep]) -> Known
    requires room { vec_len list.old + length steps.now ≤ vec_capacity list.old }
    requires known { IsKnown list.old.items known.from known.rise }
    ensures items { drop result.from list.new.items ≡ settled steps.now (drop known.from list.old.items) }
    ensures known { IsKnown list.new.items result.from result.rise }
{
    let mut after = known;
    for step in steps {
        after = take_step(list, after, *step);
    }
    after
}

// The numbers of the objects that get containers, where all steps are of that sort.
fn taken(alloc: Global, steps: &[RootStep]) -> Result<Option<Vec<u32>>, AllocError>
    ensures { IfOk result (λ found. IfSome found (λ numbers. map (λ n. TakenIn (record { 0 = n })) numbers.items ≡ steps.now)) }
{
    let mut numbers = Vec::with_capacity(alloc, steps.len())?;
    for step in steps {
        match step {
            RootStep::TakenIn(o) => numbers.push(o.0)?,
            RootStep::Freed(_) => return Ok(None),
        }
    }
    Ok(Some(numbers))
}

// Those numbers in their order, where there are many.
fn many_taken(alloc: Global, steps: &[RootStep]) -> Result<Option<Vec<u32>>, AllocError>
    ensures { IfOk result (λ found. IfSome found (λ numbers. IsNonDecreasing numbers.items
        × ((roots : List ObjId) → settled steps.now roots ≡ without_all numbers.items roots))) }
{
    if steps.len() < MANY {
        return Ok(None);
    }
    let Some(mut numbers) = taken(alloc, steps)? else {
        return Ok(None);
    };
    numbers.sort_unstable();
    Ok(Some(numbers))
}

// Whether a root is of one of these numbers.
fn is_among(numbers: &[u32], r: ObjId) -> bool
    requires { IsNonDecreasing numbers.now }
    ensures { result ≡ is_among numbers.now r }
{
    numbers.binary_search(&r.0).is_ok()
}

// The roots without those of these numbers.
fn remove_all(list: &mut Vec<ObjId>, from: usize, numbers: &[u32])
    requires within { from ≤ length list.old.items }
    requires numbers { IsNonDecreasing numbers.now }
    ensures { list.new.items ≡ without_all numbers.now (drop from list.old.items) }
{
    close(list, from);
    list.retain(|r| !is_among(numbers, *r));
}

impl Roots {
    pub(crate) fn new(alloc: Global) -> Roots
        ensures { result ≡ [] }
    {
        Roots {
            list: Vec::new(alloc),
            known: Known {
                from: 0,
                rise: true,
            },
        }
    }

    pub(crate) fn of(list: Vec<ObjId>) -> Roots
        ensures { result ≡ list.items }
    {
        let rise = rise(&list);
        Roots {
            list,
            known: Known { from: 0, rise },
        }
    }

    pub(crate) fn as_slice(&self) -> &[ObjId]
        ensures { result.now ≡ self.now }
    {
        live(&self.list, self.known.from)
    }

    // A root more, the last.
    pub(crate) fn push(&mut self, o: ObjId) -> Result<(), AllocError>
        ensures ok { OnOk result (self.new ≡ self.old ++ o ∷ []) }
        ensures err { OnErr result (self.new ≡ self.old) }
    {
        let roots = live(&self.list, self.known.from);
        let rise = still_rise(roots, self.known.rise, roots.len(), o);
        self.list.push(o)?;
        self.known.rise = rise;
        Ok(())
    }

    // The roots without those of these numbers.
    fn leave_out(&mut self, numbers: &[u32])
        requires { IsNonDecreasing numbers.now }
        ensures { self.new ≡ without_all numbers.now self.old }
    {
        remove_all(&mut self.list, self.known.from, numbers);
        self.known.from = 0;
    }

    // The roots after all steps, or as they were.
    pub(crate) fn settle(&mut self, alloc: Global, steps: &[RootStep]) -> Result<(), AllocError>
        ensures ok { OnOk result (self.new ≡ settled steps.now self.old) }
        ensures err { OnErr result (self.new ≡ self.old) }
    {
        if let Some(numbers) = many_taken(alloc, steps)? {
            self.leave_out(&numbers);
            return Ok(());
        }
        self.list.reserve(steps.len())?;
        self.known = take_steps(&mut self.list, self.known, steps);
        Ok(())
    }

    // The same roots again.
    pub(crate) fn copy(&self, alloc: Global) -> Result<Roots, AllocError>
        ensures { IfOk result (λ copy. copy ≡ self.now) }
    {
        Ok(Roots::of(Vec::from_slice(alloc, self.as_slice())?))
    }
}
