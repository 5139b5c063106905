ghost use Rattle.std.specs.Prelude.{◌≡◌, ◌<◌, IfOk, [], length, slice_index_or, slice_set};

use hx_text::NoMemory;
use std::alloc::Global;
use std::marker::Model;
use std::slice;

/// Numbers of nodes: none, one in place, or several in memory of their own.
#[derive(Drop)]
pub(crate) enum Numbers {
    None,
    One(usize),
    Several(Box<Vec<usize>>),
}

/// The numbers of the nodes that keep the key of an entry. Contracts see their list.
#[derive(Drop)]
pub struct NodeNumbers {
    numbers: Numbers,
}

impl Model for NodeNumbers {
    ghost use Rattle.std.specs.Prelude.{List, ℕ};

    ghost Value = { List ℕ };

    ghost use Rattle.hx_versions.specs.NodeNumbers.{numbers_of};

    ghost view = { λ kept. numbers_of kept.numbers };
}

impl NodeNumbers {
    /// No numbers. It takes no memory.
    pub(crate) fn none() -> NodeNumbers
        ensures { result ≡ [] }
    {
        NodeNumbers {
            numbers: Numbers::None,
        }
    }

    /// `count` places, into which numbers are put later. `NoMemory` where memory runs out; fewer
    /// than two places take none.
    pub fn places(alloc: Global, count: usize) -> Result<NodeNumbers, NoMemory>
        ensures { IfOk result (λ numbers. length numbers ≡ count) }
    {
        let numbers = match count {
            0 => Numbers::None,
            1 => Numbers::One(0),
            _ => Numbers::Several(Box::new(alloc, vec![in alloc; 0; count]?)?),
        };
        Ok(NodeNumbers { numbers })
    }

    /// The numbers, lent.
    pub(crate) fn as_slice(&self) -> &[usize]
        ensures { result.now ≡ self.now }
    {
        match &self.numbers {
            Numbers::None => &[],
            Numbers::One(number) => slice::from_ref(number),
            Numbers::Several(numbers) => numbers.as_slice(),
        }
    }

    /// The number at a position.
    pub(crate) fn get(&self, at: usize) -> usize
        requires { at < length self.now }
        ensures { result ≡ slice_index_or self.now at result }
    {
        self.as_slice()[at]
    }

    /// Puts a number into a place.
    pub(crate) fn put(&mut self, at: usize, number: usize)
        requires { at < length self.old }
        ensures { self.new ≡ slice_set self.old at number }
    {
        match &mut self.numbers {
            Numbers::None => unreachable!(),
            Numbers::One(one) => *one = number,
            Numbers::Several(numbers) => numbers[at] = number,
        }
    }
}
