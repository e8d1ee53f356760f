//! The least makespan as a problem of tree search.

ghost use Rattle.std.specs.Prelude.{◌≡◌, ℕ, ◌<◌, ◌≤◌, ◌^◌, map};
ghost use Rattle.std.specs.List.{AllByRecursion};
ghost use Rattle.yew_flow.specs.Instance.{IsWithinLimits};
ghost use Rattle.yew_flow.specs.Nodes.{appended, done_on, ends_behind as ends_with, rest_without as rest_less, jobs_in, jobs_of, later_time, least_of, lower_on as lower_on_machine, lower_of, IsNode};

use crate::flow::Flow;
use crate::nodes::{FlowKids, FlowNode};
use std::alloc::Global;
use yew_laws::{Memory, Problem};

/// What a makespan is taken from, 2^37, so that a smaller one has a greater worth.
pub(crate) const WHOLE: u64 = 1 << 37;

impl Flow {
    /// When one more job is done on each machine, where the machines are free at these times.
    #[inline(always)]
    fn ends_behind(&self, ends: &[u32; 32], job: usize) -> [u32; 32]
        requires limits { IsWithinLimits self.now }
        requires job { (1 ≤ job) × (job ≤ self.now.jobs) }
        requires small { (machine : ℕ) → machine ≤ self.now.machines → done_on self.now ends.now job machine < 2 ^ 32 }
        ensures { result ≡ ends_with self.now ends.now job }
    {
        let mut behind = *ends;
        let mut done = 0;
        for machine in 1..self.machines() + 1 {
            done = ends[machine - 1].max(done) + self.time(job, machine);
            behind[machine - 1] = done;
        }
        behind
    }

    /// What is left of these times on the machines without those of a job.
    #[inline(always)]
    fn rest_without(&self, rest: &[u32; 32], job: usize) -> [u32; 32]
        requires limits { IsWithinLimits self.now }
        requires job { (1 ≤ job) × (job ≤ self.now.jobs) }
        ensures { result ≡ rest_less self.now rest.now job }
    {
        let mut less = *rest;
        for machine in 1..self.machines() + 1 {
            less[machine - 1] = rest[machine - 1].saturating_sub(self.time(job, machine));
        }
        less
    }

    /// The list of a node with one more job.
    #[inline(always)]
    fn append(&self, node: &FlowNode, job: usize) -> FlowNode
        requires job { 1 ≤ job }
        requires child { IsNode self.now (appended self.now node.now job) }
        ensures { result ≡ appended self.now node.now job }
    {
        let mut jobs = node.jobs;
        jobs[node.placed as usize] = job as u8;
        FlowNode {
            jobs,
            placed: node.placed + 1,
            absent: node.absent & !(1 << (job - 1)),
            ends: self.ends_behind(&node.ends, job),
            rest: self.rest_without(&node.rest, job),
        }
    }

    /// The least time that one of these jobs, whose bits are set, takes on the machines after one, and 0 where there are
    /// none.
    #[inline(always)]
    fn least_later(&self, absent: u64, machine: usize) -> u32
        requires limits { IsWithinLimits self.now }
        requires absent { AllByRecursion (λ job. (1 ≤ job) × (job ≤ self.now.jobs)) (jobs_in absent) }
        requires machine { (1 ≤ machine) × (machine ≤ self.now.machines) }
        ensures { result ≡ least_of (map (later_time self.now machine) (jobs_in absent)) }
    {
        for rank in 0..self.jobs() {
            let place = self.ranked(machine, rank);
            if absent >> (place % 64) & 1 == 1 {
                return self.later(machine, place);
            }
        }
        0
    }

    /// What one machine tells of the orders that begin with a node's list: none is done earlier.
    #[inline(always)]
    fn lower_on(&self, node: &FlowNode, machine: usize) -> u32
        requires node { IsNode self.now node.now }
        requires machine { (1 ≤ machine) × (machine ≤ self.now.machines) }
        ensures { result ≡ lower_on_machine self.now (jobs_of node.now) machine }
    {
        let later = self.least_later(node.absent, machine);
        node.ends[machine - 1] + node.rest[machine - 1] + later
    }

    /// The greatest that a machine tells.
    #[inline(always)]
    fn lower(&self, node: &FlowNode) -> u32
        requires node { IsNode self.now node.now }
        ensures { result ≡ lower_of self.now (jobs_of node.now) }
    {
        let mut lower = 0;
        for machine in 1..self.machines() + 1 {
            lower = self.lower_on(node, machine).max(lower);
        }
        lower
    }
}

impl Problem for Flow {
    ghost use Rattle.yew_flow.specs.Nodes.{root_of, children_of, remaining_of, rank_of, worth_of, bound_of, IsNode};
    ghost use Rattle.yew_flow.specs.NodeLaws.{orders-ranked, root_rank-small, children-few};
    ghost use Rattle.yew_flow.specs.BoundLaws.{orders-bounded};

    type Node = FlowNode;

    type Kids = FlowKids;

    ghost root = { root_of };

    ghost children = { children_of };

    ghost rank = { rank_of };

    ghost sound = { IsNode };

    ghost remaining = { remaining_of };

    ghost worth = { worth_of };

    ghost bound = { bound_of };

    ghost ranked = { orders-ranked };

    ghost root_rank = { root_rank-small };

    ghost bounded = { orders-bounded };

    ghost countable = { children-few };

    #[inline(always)]
    fn root(&self, _alloc: Global) -> Result<FlowNode, Memory> {
        Ok(self.first())
    }

    #[inline(always)]
    fn open(&self, _alloc: Global, node: FlowNode) -> Result<FlowKids, Memory> {
        Ok(FlowKids {
            left: node.absent,
            parent: node,
        })
    }

    #[inline(always)]
    fn next(&self, _alloc: Global, kids: &mut FlowKids) -> Result<Option<FlowNode>, Memory> {
        let left = kids.left;
        if left == 0 {
            return Ok(None);
        }
        let place = left.trailing_zeros();
        let child = self.append(&kids.parent, place as usize + 1);
        kids.left = left & !(1 << place);
        Ok(Some(child))
    }

    #[inline(always)]
    fn worth(&self, node: &FlowNode) -> u64 {
        if node.absent != 0 {
            return 0;
        }
        WHOLE - node.ends[self.machines() - 1] as u64
    }

    #[inline(always)]
    fn bound(&self, node: &FlowNode) -> u64 {
        WHOLE - self.lower(node) as u64
    }
}
