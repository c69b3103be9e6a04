//! The endings of closed lives that wait, in the order of the moments from which on sweeps take them.
ghost use Rattle.std.specs.Prelude.{◌≡◌, ◌+◌, ◌≤◌, ◌<◌, ◌^◌, ◌++◌, [], ◌∷◌, ℕ, true, false, length, filter, vec_len, slice_get, option_copied, IfOk, IfSome, IfNone, OnOk, OnErr, OnSome};
ghost use Rattle.std.specs.List.{list_any};
ghost use Rattle.std.specs.BinaryHeap.{IsHeap, heap_capacity, heap_items, heap_len};
ghost use Rattle.std.specs.Ordering.{nat_cmp, ordering_then};
ghost use Rattle.std.proofs.Props.{props};

use label_set::NoMemory;
use std::alloc::Global;
use std::cmp::Reverse;
use std::collections::BinaryHeap;

/// Endings that wait: for each the moment from which on a sweep takes it, and the number of its life. The earliest stands first.
#[derive(Drop)]
pub struct Endings {
    order: BinaryHeap<Reverse<(u64, usize)>>,
    ghost ordered: { IsHeap (λ x y. ordering_then (nat_cmp y.0.0 x.0.0) (nat_cmp y.0.1 x.0.1)) (heap_items order) } by { Prim.hlevel props },
}

impl Endings {
    ghost use Rattle.scrape_steps.specs.Endings as spec;

    /// None.
    pub fn new(alloc: Global) -> Endings
        ensures { spec.waiting result ≡ [] }
    {
        Endings {
            order: BinaryHeap::new(alloc),
        }
    }

    /// Makes room for so many more.
    pub fn reserve(&mut self, more: usize) -> Result<(), NoMemory>
        ensures same { spec.waiting self.new ≡ spec.waiting self.old }
        ensures room { OnOk result (spec.HasRoom self.new more) }
    {
        self.order.reserve(more)?;
        Ok(())
    }

    /// Adds the ending of a life, into room that was made before.
    pub fn add(&mut self, due: u64, life: usize)
        requires { spec.HasRoom self.old 1 }
        ensures added { spec.HoldSame ((due, life) ∷ spec.waiting self.old) (spec.waiting self.new) }
        ensures room { (n : ℕ) → spec.HasRoom self.old (n + 1) → spec.HasRoom self.new n }
    {
        let _ = self.order.push(Reverse((due, life)));
    }

    /// From when on the earliest is due.
    pub fn first(&self) -> Option<u64>
        ensures { (n : ℕ) → list_any (spec.is_due n) (spec.waiting self.now) ≡ spec.reached n result }
    {
        match self.order.peek() {
            None => None,
            Some(first) => {
                let ending = first.0;
                Some(ending.0)
            }
        }
    }

    /// Whether one is due at a moment.
    pub fn is_due(&self, moment: u64) -> bool
        ensures { result ≡ list_any (spec.is_due moment) (spec.waiting self.now) }
    {
        match self.first() {
            None => false,
            Some(first) => moment >= first,
        }
    }

    /// Takes one out that is due at a moment, if there is one.
    fn pop_due(&mut self, moment: u64) -> Option<(u64, usize)>
        ensures due { IfSome result (λ e. spec.is_due moment e ≡ true) }
        ensures taken { IfSome result (λ e. spec.HoldSame (spec.waiting self.old) (e ∷ spec.waiting self.new)) }
        ensures less { OnSome result (heap_len self.new.order + 1 ≡ heap_len self.old.order) }
        ensures none { IfNone result (list_any (spec.is_due moment) (spec.waiting self.new) ≡ false) }
        ensures same { IfNone result (spec.waiting self.new ≡ spec.waiting self.old) }
        ensures len { IfNone result (heap_len self.new.order ≡ heap_len self.old.order) }
        ensures capacity { heap_capacity self.new.order ≡ heap_capacity self.old.order }
    {
        if !self.is_due(moment) {
            return None;
        }
        match self.order.pop() {
            None => None,
            Some(Reverse(ending)) => Some(ending),
        }
    }

    /// Takes out those that are due at a moment. There stays room to put them back.
    pub fn take_due(&mut self, alloc: Global, moment: u64) -> Result<Vec<(u64, usize)>, NoMemory>
        ensures due { IfOk result (λ v. spec.HoldSame (filter (spec.is_due moment) (spec.waiting self.old)) v.items) }
        ensures left { OnOk result (spec.HoldSame (filter (spec.is_early moment) (spec.waiting self.old)) (spec.waiting self.new)) }
        ensures room { IfOk result (λ v. spec.HasRoom self.new (vec_len v)) }
        ensures err { OnErr result (spec.waiting self.new ≡ spec.waiting self.old) }
    {
        if !self.is_due(moment) {
            return Ok(Vec::new(alloc));
        }
        let mut due = Vec::with_capacity(alloc, self.order.len())?;
        while let Some(ending) = self.pop_due(moment) {
            due.push_reserved(ending);
        }
        Ok(due)
    }

    /// Puts endings back that were taken out.
    pub fn put_back(&mut self, mut due: Vec<(u64, usize)>)
        requires { spec.HasRoom self.old (vec_len due) }
        ensures { spec.HoldSame (due.items ++ spec.waiting self.old) (spec.waiting self.new) }
    {
        while let Some(ending) = due.pop() {
            self.add(ending.0, ending.1);
        }
    }
}
