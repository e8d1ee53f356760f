//! The nodes of the tree of lists of jobs.

ghost use Rattle.std.specs.Prelude.{◌≡◌, ◌≤◌};
ghost use Rattle.yew_flow.specs.Nodes.{start_at};

/// A list of different jobs, and what is known of the orders that begin with it. Jobs and machines are numbered from 1;
/// there are at most 64 jobs and 32 machines.
#[derive(Clone, Copy, Debug, PartialEq, Eq)]
pub struct FlowNode {
    /// The jobs of the list in order. What stands behind them has no meaning.
    pub(crate) jobs: [u8; 64],
    /// How many jobs the list has.
    pub(crate) placed: u8,
    /// Bit j - 1 is set where job j is not in the list.
    pub(crate) absent: u64,
    /// When the last job of the list is done on each machine.
    pub(crate) ends: [u32; 32],
    /// The sum of the times of the absent jobs on each machine.
    pub(crate) rest: [u32; 32],
}

impl FlowNode {
    /// The list of no job, of so many jobs, whose times on each machine have these sums.
    pub(crate) fn root(jobs: usize, rest: [u32; 32]) -> FlowNode
        requires { (1 ≤ jobs) × (jobs ≤ 64) }
        ensures { result ≡ start_at jobs rest }
    {
        let absent = if jobs == 64 {
            u64::MAX
        } else {
            (1u64 << jobs) - 1
        };
        FlowNode {
            jobs: [0; 64],
            placed: 0,
            absent,
            ends: [0; 32],
            rest,
        }
    }
}

/// The lists with one more job that are still to come: the list without it, and the jobs to try.
#[derive(Clone, Copy, Debug, PartialEq, Eq)]
pub struct FlowKids {
    pub(crate) parent: FlowNode,
    /// Bit j - 1 is set where job j is still to be tried.
    pub(crate) left: u64,
}
