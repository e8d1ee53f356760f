//! What a permutation flow shop is about: its jobs, its machines, and the time of each job on each machine.

ghost use Rattle.std.specs.Prelude.{◌≡◌, ◌*◌, ◌<◌, ◌≤◌, length, replicate, slice_index, IfOk};
ghost use Rattle.yew_flow.specs.Instance.{Instance, IsWithinLimits, time_on as time_of_job};
ghost use Rattle.yew_flow.specs.Nodes.{all_jobs, time_of_all, later_time, later_entry, later_table, later_in, places_by, with_machines};

use crate::nodes::FlowNode;
use crate::order::{later_at_place, orders_of};
use std::alloc::Global;
use std::marker::Model;
use yew_laws::Memory;

/// The time of a job on a machine, of those of so many jobs on so many machines job by job.
#[inline(always)]
fn time_at(jobs: usize, machines: usize, times: &[u32], job: usize, machine: usize) -> u32
    requires whole { length times.now ≡ jobs * machines }
    requires job { (1 ≤ job) × (job ≤ jobs) }
    requires machine { (1 ≤ machine) × (machine ≤ machines) }
    ensures { result ≡ time_of_job (record { jobs = jobs; machines = machines; times = times.now }) job machine }
{
    let _ = jobs;
    times[(job - 1) * machines + (machine - 1)]
}

/// How long all jobs take on a machine.
fn total_on(jobs: usize, machines: usize, times: &[u32], machine: usize) -> u32
    requires limits { IsWithinLimits (record { jobs = jobs; machines = machines; times = times.now }) }
    requires machine { (1 ≤ machine) × (machine ≤ machines) }
    ensures { let instance : Instance = record { jobs = jobs; machines = machines; times = times.now } in
        result ≡ time_of_all instance (all_jobs instance) machine }
{
    let mut total = 0;
    for job in 1..jobs + 1 {
        total += time_at(jobs, machines, times, job, machine);
    }
    total
}

/// How long all jobs take on each machine.
fn totals(jobs: usize, machines: usize, times: &[u32]) -> [u32; 32]
    requires limits { IsWithinLimits (record { jobs = jobs; machines = machines; times = times.now }) }
    ensures { let instance : Instance = record { jobs = jobs; machines = machines; times = times.now } in
        result ≡ with_machines instance (replicate 32 0) (time_of_all instance (all_jobs instance)) }
{
    let mut totals = [0; 32];
    for machine in 1..machines + 1 {
        totals[machine - 1] = total_on(jobs, machines, times, machine);
    }
    totals
}

/// How long a job takes on the machines after one.
fn later_sum(jobs: usize, machines: usize, times: &[u32], machine: usize, job: usize) -> u32
    requires limits { IsWithinLimits (record { jobs = jobs; machines = machines; times = times.now }) }
    requires machine { (1 ≤ machine) × (machine ≤ machines) }
    requires job { (1 ≤ job) × (job ≤ jobs) }
    ensures { result ≡ later_time (record { jobs = jobs; machines = machines; times = times.now }) machine job }
{
    let mut sum = 0;
    for later in machine + 1..machines + 1 {
        sum += time_at(jobs, machines, times, job, later);
    }
    sum
}

/// How many places a machine has in the table of later times: one for each of at most 64 jobs. A power of two makes the
/// look-up a shift.
pub(crate) const ROW: usize = 64;

/// What stands at a place of the table of later times: how long a job takes on the machines after one, and 0 behind the
/// last job.
fn later_at(jobs: usize, machines: usize, times: &[u32], place: usize) -> u32
    requires limits { IsWithinLimits (record { jobs = jobs; machines = machines; times = times.now }) }
    requires place { place < 64 * machines }
    ensures { result ≡ later_entry (record { jobs = jobs; machines = machines; times = times.now }) place }
{
    let machine = place / ROW + 1;
    let job = place % ROW + 1;
    if job > jobs {
        return 0;
    }
    later_sum(jobs, machines, times, machine, job)
}

/// The table of later times, in a row of [`ROW`] places for each machine.
fn later_of(alloc: Global, jobs: usize, machines: usize, times: &[u32]) -> Result<Vec<u32>, Memory>
    requires limits { IsWithinLimits (record { jobs = jobs; machines = machines; times = times.now }) }
    ensures { IfOk result (λ later. later.items ≡ later_table (record { jobs = jobs; machines = machines; times = times.now })) }
{
    let mut later = Vec::with_capacity(alloc, ROW * machines)?;
    for place in 0..ROW * machines {
        later.push(later_at(jobs, machines, times, place))?;
    }
    Ok(later)
}

/// A permutation flow shop: the numbers of jobs and of machines, and the time of each job on each machine. Beside them it
/// keeps how long each job takes on the machines after each one, for each machine the jobs by that time, and the root of its
/// tree.
#[derive(Drop)]
pub struct Flow {
    jobs: usize,
    machines: usize,
    times: Vec<u32>,
    later: Vec<u32>,
    order: Vec<u8>,
    root: FlowNode,
}

impl Model for Flow {
    ghost use Rattle.std.specs.Prelude.{◌≡◌};
    ghost use Rattle.yew_flow.specs.Instance.{Instance};

    ghost Value = { Instance };

    ghost use Rattle.yew_flow.specs.Nodes.{later_table, places_table, root_of};

    ghost view = { λ t. record { jobs = t.jobs; machines = t.machines; times = t.times.items } };

    ghost invariant = { λ t. let instance : Instance = record { jobs = t.jobs; machines = t.machines; times = t.times.items } in
        (t.later.items ≡ later_table instance) × (t.order.items ≡ places_table instance) × (t.root ≡ root_of instance) };
}

impl Flow {
    ghost use Rattle.yew_flow.specs.Nodes.{root_of};

    /// The problem of so many jobs and machines with these times, which are given job by job.
    pub(crate) fn new(jobs: usize, machines: usize, times: Vec<u32>) -> Result<Flow, Memory>
        requires { IsWithinLimits (record { jobs = jobs; machines = machines; times = times.items }) }
        ensures { IfOk result (λ problem. problem ≡ record { jobs = jobs; machines = machines; times = times.items }) }
    {
        let alloc = *times.allocator();
        let later = later_of(alloc, jobs, machines, times.as_slice())?;
        let order = orders_of(alloc, later.as_slice(), jobs, machines)?;
        let root = FlowNode::root(jobs, totals(jobs, machines, times.as_slice()));
        Ok(Flow {
            jobs,
            machines,
            times,
            later,
            order,
            root,
        })
    }

    /// The number of machines.
    #[inline(always)]
    pub(crate) fn machines(&self) -> usize
        ensures { result ≡ self.now.machines }
    {
        self.machines
    }

    /// The times of all jobs on all machines, job by job.
    #[inline(always)]
    pub(crate) fn times(&self) -> &[u32]
        ensures { result.now ≡ self.now.times }
    {
        self.times.as_slice()
    }

    /// The root of the tree.
    #[inline(always)]
    pub(crate) fn first(&self) -> FlowNode
        ensures { result ≡ root_of self.now }
    {
        self.root
    }

    /// The time of a job on a machine.
    #[inline(always)]
    pub(crate) fn time(&self, job: usize, machine: usize) -> u32
        requires limits { IsWithinLimits self.now }
        requires job { (1 ≤ job) × (job ≤ self.now.jobs) }
        requires machine { (1 ≤ machine) × (machine ≤ self.now.machines) }
        ensures { result ≡ time_of_job self.now job machine }
    {
        time_at(
            self.jobs,
            self.machines,
            self.times.as_slice(),
            job,
            machine,
        )
    }

    /// The place of the job of a rank among all jobs by their times on the machines after one.
    #[inline(always)]
    pub(crate) fn ranked(&self, machine: usize, rank: usize) -> u8
        requires limits { IsWithinLimits self.now }
        requires machine { (1 ≤ machine) × (machine ≤ self.now.machines) }
        requires rank { rank < self.now.jobs }
        ensures { result ≡ slice_index (places_by (later_table self.now) self.now.jobs machine) rank }
    {
        self.order[(machine - 1) * self.jobs + rank]
    }

    /// The number of jobs.
    #[inline(always)]
    pub(crate) fn jobs(&self) -> usize
        ensures { result ≡ self.now.jobs }
    {
        self.jobs
    }

    /// What the job of a place takes on the machines after one.
    #[inline(always)]
    pub(crate) fn later(&self, machine: usize, place: u8) -> u32
        requires limits { IsWithinLimits self.now }
        requires machine { (1 ≤ machine) × (machine ≤ self.now.machines) }
        ensures { result ≡ later_in (later_table self.now) machine place }
    {
        later_at_place(self.later.as_slice(), machine, place)
    }
}
