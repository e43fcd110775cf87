//! Numbers that are added to, and the sums of the first of them, in log n steps each.
//!
//! They are the leaves of a binary tree in one vector: node 1 is its root, nodes 2k and 2k + 1 are
//! the children of node k, and each node has the sum of its children.
ghost use Rattle.std.specs.Prelude.{◌≡◌, ◌<◌, ◌≤◌, ◌+◌, ◌*◌, ◌^◌, ◌%◌, IfOk, length, vec_len};
ghost use Rattle.audit_base.specs.Sums.{sum_below};
ghost use Rattle.order_arrivals.specs.PrefixSums.{AreZeros, IsAdded, IsPowerOfTwo, IsSumTree, left_sibling, number_in, total_in};

use audit_base::faults::NoMemory;
use matching_core::totals::zeros;
use std::alloc::Global;

/// Numbers, with the sums of the first of them.
#[derive(Drop)]
pub(crate) struct PrefixSums {
    nodes: Vec<u128>,
    /// The node of the first number, and how many there are: a power of two.
    width: usize,
}

/// A power of two that is greater than a count.
fn width_for(count: usize) -> usize
    requires { count < 2 ^ 40 }
    ensures power { IsPowerOfTwo result }
    ensures more { count < result }
    ensures most { result ≤ 2 * count + 1 }
{
    let mut width: usize = 1;
    while width <= count {
        width *= 2;
    }
    width
}

/// What the left sibling of a node has, where it is the right one, else nothing.
fn left_sibling(nodes: &[u128], node: usize) -> u128
    requires { node < length nodes.now }
    ensures { result ≡ left_sibling nodes.now node }
{
    if node % 2 == 1 { nodes[node - 1] } else { 0 }
}

impl PrefixSums {
    /// More than this many numbers, each 0.
    pub(crate) fn new(alloc: Global, count: usize) -> Result<PrefixSums, NoMemory>
        requires { count < 2 ^ 40 }
        ensures { IfOk result (AreZeros count) }
    {
        let width = width_for(count);
        let nodes = zeros(alloc, 2 * width)?;
        Ok(PrefixSums { nodes, width })
    }

    /// Adds an amount to the number at an index.
    pub(crate) fn add(&mut self, index: usize, amount: u128)
        requires tree { IsSumTree self.old }
        requires inside { index < self.old.width }
        requires fits { total_in self.old + amount < 2 ^ 128 }
        ensures { IsAdded index amount self.old self.new }
    {
        let mut node = self.width + index;
        while node > 0 {
            self.nodes[node] += amount;
            node /= 2;
        }
    }

    /// The sum of the numbers before an index.
    pub(crate) fn sum_before(&self, index: usize) -> u128
        requires tree { IsSumTree self.now }
        requires inside { index < self.now.width }
        requires fits { total_in self.now < 2 ^ 128 }
        ensures { result ≡ sum_below (number_in self.now) index }
    {
        let mut sum: u128 = 0;
        let mut node = self.width + index;
        let mut first = self.width;
        while first > 1 {
            sum += left_sibling(&self.nodes, node);
            node /= 2;
            first /= 2;
        }
        sum
    }
}
