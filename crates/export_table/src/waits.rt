//! References that were returned and await their acknowledgement.
ghost use Rattle.std.specs.Prelude.{◌≡◌, ◌++◌, ◌∷◌, [], ◌+◌, ◌<◌, ◌≤◌, ◌&&◌, true, length, filter, take, drop, map, not, IfOk, vec_len, vec_capacity};
ghost use Rattle.std.specs.List.{list_any};
ghost use Rattle.object_ids.specs.Same.{same_id, same_uid};
ghost use Rattle.export_table.specs.Waits.{is_wait_of, ends_between, goes_on, still_waiting, ended_waits, end_of_wait, of_return};
ghost use Rattle.export_table.specs.WaitIndex.{stays, EndsNoEarlier, EndsRise};
ghost use Rattle.dgc_server.specs.HolderIndex.{one_if};

use object_ids::{ObjId, Uid};
use sequence::Same;
use std::alloc::{AllocError, Global};

/// A reference to an object that was returned, and awaits its acknowledgement (Java RMI Specification,
/// chapter 10: `DgcAck`).
#[derive(Clone, Copy)]
pub struct Wait {
    /// The object.
    pub object: ObjId,
    /// The identifier of the return.
    pub uid: Uid,
    /// The moment at which it ceases to wait, in milliseconds.
    pub until: u64,
}

impl Wait {
    /// True where it is of this object and return.
    pub fn is_of(&self, object: &ObjId, uid: &Uid) -> bool
        ensures { result ≡ is_wait_of object.now uid.now self.now }
    {
        self.is_of_object(object) && self.is_of_return(uid)
    }

    /// True where it is of this object.
    pub fn is_of_object(&self, object: &ObjId) -> bool
        ensures { result ≡ same_id self.now.object object.now }
    {
        self.object.is_same(object)
    }

    /// True where it is of this return.
    pub fn is_of_return(&self, uid: &Uid) -> bool
        ensures { result ≡ same_uid self.now.uid uid.now }
    {
        self.uid.is_same(uid)
    }

    /// True where it goes on after a moment.
    pub fn goes_on(&self, time: u64) -> bool
        ensures { result ≡ goes_on time self.now }
    {
        time < self.until
    }
}

/// The number of waits that have ended at a moment.
pub fn count_over(waits: &[Wait], time: u64) -> usize
    ensures { result ≡ length (ended_waits time waits.now) }
{
    waits.iter().filter(|wait| !wait.goes_on(time)).count()
}

/// The number of waits of an object that have ended at a moment.
pub fn count_over_of(waits: &[Wait], object: &ObjId, time: u64) -> usize
    ensures { result ≡ length
        (filter (λ w. not (goes_on time w) && same_id w.object object.now) waits.now) }
{
    waits
        .iter()
        .filter(|wait| !wait.goes_on(time) && wait.is_of_object(object))
        .count()
}

/// True where the wait of this reference has ended at a moment.
pub fn is_over(waits: &[Wait], object: &ObjId, uid: &Uid, time: u64) -> bool
    ensures { result ≡ list_any (λ w. not (goes_on time w) && is_wait_of object.now uid.now w)
        waits.now }
{
    waits
        .iter()
        .any(|wait| !wait.goes_on(time) && wait.is_of(object, uid))
}

/// The moment at which this reference ceases to wait, 0 where it is not listed.
pub fn end_of_wait(waits: &[Wait], object: &ObjId, uid: &Uid) -> u64
    ensures { result ≡ end_of_wait object.now uid.now waits.now }
{
    for wait in waits {
        if wait.is_of(object, uid) {
            return wait.until;
        }
    }
    0
}

/// Appends a wait for which there is room.
pub fn put(waits: &mut Vec<Wait>, wait: Wait)
    requires { vec_len waits.old < vec_capacity waits.old }
    ensures items { waits.new.items ≡ waits.old.items ++ wait ∷ [] }
    ensures len { vec_len waits.new ≡ vec_len waits.old + 1 }
    ensures capacity { vec_capacity waits.new ≡ vec_capacity waits.old }
{
    waits.push_reserved(wait);
}

/// A choice of the waits that stay.
#[derive(Clone, Copy)]
pub enum Stays {
    /// Those that go on after a moment.
    After(u64),
    /// Those of other references than this one.
    OtherReferences(ObjId, Uid),
    /// Those of other returns than this one.
    OtherReturns(Uid),
}

impl Stays {
    /// True where a wait stays.
    pub fn has(&self, wait: &Wait) -> bool
        ensures { result ≡ stays self.now wait.now }
    {
        match self {
            Stays::After(time) => wait.goes_on(*time),
            Stays::OtherReferences(object, uid) => !wait.is_of(object, uid),
            Stays::OtherReturns(uid) => !wait.is_of_return(uid),
        }
    }
}

/// The objects of the waits that don't stay.
pub fn objects_that_go(
    alloc: Global,
    waits: &[Wait],
    which: &Stays,
) -> Result<Vec<ObjId>, AllocError>
    ensures { IfOk result (λ objects.
        objects.items ≡ map (λ w. w.object) (filter (λ w. not (stays which.now w)) waits.now)) }
{
    waits
        .iter()
        .filter(|wait| !which.has(wait))
        .map(|wait| wait.object)
        .collect(alloc)
}

/// True where some wait has ended at a moment.
pub fn has_ended(waits: &[Wait], time: u64) -> bool
    ensures { result ≡ list_any (λ w. not (goes_on time w)) waits.now }
{
    waits.iter().any(|wait| !wait.goes_on(time))
}

/// Returns whether some wait ends after the moment `from` and no later than the moment `to`.
pub fn has_ended_since(waits: &[Wait], from: u64, to: u64) -> bool
    ensures { result ≡ list_any (ends_between from to) waits.now }
{
    waits
        .iter()
        .any(|wait| !wait.goes_on(to) && wait.goes_on(from))
}

/// A part of the waits, from its first place up to the second, that has all of a return, of which there are so many: it ends with the list or begins with it,
/// whichever is found in fewer steps. It looks at twice as many waits as this part has.
pub fn part_of(waits: &[Wait], uid: &Uid, count: u32) -> (usize, usize)
    requires { count ≡ length (of_return uid.now waits.now) }
    ensures order { result.0 ≤ result.1 }
    ensures within { result.1 ≤ length waits.now }
    ensures before { of_return uid.now (take result.0 waits.now) ≡ [] }
    ensures after { of_return uid.now (drop result.1 waits.now) ≡ [] }
{
    let mut earlier = count;
    let mut later = count;
    let mut looked = 0;
    while earlier > 0 && later > 0 {
        later = less_if(later, &waits[looked], uid);
        looked += 1;
        earlier = less_if(earlier, &waits[waits.len() - looked], uid);
    }
    if later == 0 {
        (0, looked)
    } else {
        (waits.len() - looked, waits.len())
    }
}

/// One fewer than a count where a wait is of this return, and else the count.
fn less_if(count: u32, wait: &Wait, uid: &Uid) -> u32
    requires { one_if (same_uid wait.now.uid uid.now) ≤ count }
    ensures { result + one_if (same_uid wait.now.uid uid.now) ≡ count }
{
    if wait.is_of_return(uid) {
        count - 1
    } else {
        count
    }
}

/// Moves the waits that stay to the front, in their order, as all before the place `first` stand there, and says how many stay. It looks at none of these.
fn keep(waits: &mut [Wait], first: usize, which: &Stays) -> usize
    requires within { first ≤ length waits.old }
    requires before { filter (stays which.now) (take first waits.old) ≡ take first waits.old }
    ensures kept { take result waits.new ≡ filter (stays which.now) waits.old }
    ensures within { result ≤ length waits.new }
    ensures len { length waits.new ≡ length waits.old }
{
    let mut kept = first;
    for i in first..waits.len() {
        let wait = waits[i];
        if which.has(&wait) {
            waits[kept] = wait;
            kept += 1;
        }
    }
    kept
}

/// Keeps of the waits behind so many at the front those that stay, as all of them before the place `first` do. It looks at none of these.
pub fn keep_behind(waits: &mut Vec<Wait>, gone: usize, first: usize, which: &Stays)
    requires gone { gone ≤ length waits.old.items }
    requires within { first ≤ length (drop gone waits.old.items) }
    requires before { filter (stays which.now) (take first (drop gone waits.old.items))
        ≡ take first (drop gone waits.old.items) }
    ensures kept { drop gone waits.new.items
        ≡ filter (stays which.now) (drop gone waits.old.items) }
    ensures gone { gone ≤ length waits.new.items }
    ensures len { vec_len waits.new ≤ vec_len waits.old }
    ensures capacity { vec_capacity waits.new ≡ vec_capacity waits.old }
{
    let kept = keep(&mut waits[gone..], first, which);
    waits.truncate(gone + kept);
}

/// Keeps of the waits behind so many at the front those that stay, as all of them from the place `upto` on do, and answers how many at the front are gone then.
/// It looks at none from that place on.
pub fn keep_before(waits: &mut [Wait], gone: usize, upto: usize, which: &Stays) -> usize
    requires within { gone + upto ≤ length waits.old }
    requires after { filter (stays which.now) (drop (gone + upto) waits.old)
        ≡ drop (gone + upto) waits.old }
    ensures kept { drop result waits.new ≡ filter (stays which.now) (drop gone waits.old) }
    ensures within { result ≤ length waits.new }
    ensures len { length waits.new ≡ length waits.old }
{
    let mut kept = gone + upto;
    let mut place = kept;
    while place > gone {
        place -= 1;
        let wait = waits[place];
        if which.has(&wait) {
            kept -= 1;
            waits[kept] = wait;
        }
    }
    kept
}

/// The waits behind so many at the front.
pub fn behind(waits: &[Wait], gone: usize) -> &[Wait]
    requires { gone ≤ length waits.now }
    ensures { result.now ≡ drop gone waits.now }
{
    &waits[gone..]
}

/// Takes out so many waits at the front.
pub fn drop_front(waits: &mut Vec<Wait>, count: usize)
    requires { count ≤ vec_len waits.old }
    ensures items { waits.new.items ≡ drop count waits.old.items }
    ensures len { vec_len waits.new ≤ vec_len waits.old }
    ensures capacity { vec_capacity waits.new ≡ vec_capacity waits.old }
{
    let left = waits.len() - count;
    waits.copy_within(count.., 0);
    waits.truncate(left);
}

/// The number of waits that have ended at a moment, where their ends rise. It looks at these, and at one more.
pub fn due_front(waits: &[Wait], time: u64) -> usize
    requires { EndsRise waits.now }
    ensures within { result ≤ length waits.now }
    ensures rest { still_waiting time waits.now ≡ drop result waits.now }
{
    for i in 0..waits.len() {
        if waits[i].goes_on(time) {
            return i;
        }
    }
    waits.len()
}

/// True where the ends rise with one wait more, where it is told whether they rise without it.
pub fn rises_with(waits: &[Wait], rising: bool, wait: &Wait) -> bool
    requires { rising ≡ true → EndsRise waits.now }
    ensures { result ≡ true → EndsRise (waits.now ++ wait.now ∷ []) }
{
    if waits.is_empty() {
        return true;
    }
    rising && waits[waits.len() - 1].until <= wait.until
}

/// The moment at which the first of these ceases to wait, where their ends rise; the greatest number where there is none.
pub fn first_end(waits: &[Wait]) -> u64
    requires { EndsRise waits.now }
    ensures { EndsNoEarlier result waits.now }
{
    if waits.is_empty() {
        return u64::MAX;
    }
    waits[0].until
}

/// True where of these waits none ends before one that was listed earlier.
pub fn rise(waits: &[Wait]) -> bool
    ensures { result ≡ true → EndsRise waits.now }
{
    let mut greatest = 0;
    for wait in waits {
        if wait.until < greatest {
            return false;
        }
        greatest = wait.until;
    }
    true
}

/// The moment at which the first of these ceases to wait; the greatest number where there is none.
pub fn least_end(waits: &[Wait]) -> u64
    ensures { EndsNoEarlier result waits.now }
{
    let mut least = u64::MAX;
    for wait in waits {
        least = least.min(wait.until);
    }
    least
}
