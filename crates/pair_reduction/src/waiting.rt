// Lists that wait to be looked at again.
ghost use Rattle.std.specs.Prelude.{◌≡◌, ◌<◌, ℕ, IfOk, IfSome, None, OnErr, OnOk, false, length, replicate, slice_set, true};
ghost use Rattle.pair_reduction.specs.Flags.{is_waiting};

use hrt_base::NoMemory;
use std::alloc::Global;
use std::marker::Model;

/// Which of so many lists wait.
#[derive(Drop)]
pub(crate) struct Waiting {
    flags: Vec<bool>,
    /// Each that waits is among these.
    stack: Vec<u32>,
}

impl Model for Waiting {
    ghost use Rattle.std.specs.Prelude.{◌<◌, All, Bool, List, length};
    ghost use Rattle.pair_reduction.specs.Flags.{AreStacked};

    ghost Value = { List Bool };

    ghost view = { λ w. w.flags.items };

    ghost invariant = { λ w. AreStacked w.flags.items w.stack.items × All (λ n. n < length w.flags.items) w.stack.items };
}

impl Waiting {
    /// All lists wait.
    pub(crate) fn all(alloc: Global, lists: u32) -> Result<Waiting, NoMemory>
        ensures { IfOk result (λ w. w ≡ replicate lists true) }
    {
        let mut flags = Vec::with_capacity(alloc, lists as usize)?;
        let mut stack = Vec::with_capacity(alloc, lists as usize)?;
        for n in 0..lists {
            flags.push(true)?;
            stack.push(n)?;
        }
        Ok(Waiting { flags, stack })
    }

    /// Makes a list wait.
    pub(crate) fn add(&mut self, n: u32) -> Result<(), NoMemory>
        requires { n < length self.old }
        ensures { OnOk result (self.new ≡ slice_set self.old n true) }
    {
        self.stack.push(n)?;
        self.flags[n as usize] = true;
        Ok(())
    }

    /// A list that waits, if one does.
    pub(crate) fn first(&mut self) -> Option<u32>
        ensures same { self.new ≡ self.old }
        ensures some { IfSome result (λ n. is_waiting self.old n ≡ true) }
        ensures declared { IfSome result (λ n. n < length self.old) }
        ensures none { result ≡ None → (n : ℕ) → is_waiting self.old n ≡ false }
    {
        'stack: while !self.stack.is_empty() {
            let n = self.stack[self.stack.len() - 1];
            if self.flags[n as usize] {
                return Some(n);
            }
            self.stack.pop();
        }
        None
    }

    /// A list waits no more.
    pub(crate) fn remove(&mut self, n: u32)
        requires { n < length self.old }
        ensures { self.new ≡ slice_set self.old n false }
    {
        self.flags[n as usize] = false;
    }
}
