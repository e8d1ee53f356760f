//! The texts of answers.

ghost use Rattle.std.specs.Prelude.{◌≡◌, ◌+◌, ◌-◌, ◌≤◌, ◌^◌, ◌++◌, codes, IfOk, OnOk};
ghost use Rattle.yew_laws.specs.Greatest.{greatest};
ghost use Rattle.yew_lines.specs.Spelling.{numbers_line};
ghost use Rattle.yew_flow.specs.Answers.{orders_tree};
ghost use Rattle.yew_flow.specs.Nodes.{jobs_of, root_of, worth_of, IsNode};
ghost use Rattle.yew_flow.specs.Texts.{best_lines, near_lines, IsBestText, IsNearText};

use crate::flow::Flow;
use crate::nodes::FlowNode;
use crate::problem::WHOLE;
use std::alloc::Global;
use yew_laws::Memory;
use yew_lines::{push_line_end, push_numbers_line, push_spaced, push_text};

/// Appends the line of the jobs of an order.
fn push_jobs(out: &mut Vec<u8>, jobs: &[u8]) -> Result<(), Memory>
    ensures { OnOk result (out.new.items ≡ out.old.items ++ numbers_line (codes "order") jobs.now) }
{
    push_text(out, b"order")?;
    for job in jobs {
        push_spaced(out, *job as u64)?;
    }
    push_line_end(out)
}

impl Flow {
    /// The text of the least makespan: the line `best L`, and the line `order` with the jobs in order.
    ///
    /// It takes a node with its worth, which is at least 1: that of a list of all jobs, 2^37 less the makespan L.
    ///
    /// # Errors
    ///
    /// `Memory` where the text finds no room.
    pub fn best_text(&self, alloc: Global, worth: u64, node: &FlowNode) -> Result<Vec<u8>, Memory>
        requires root { IsNode self.now (root_of self.now) }
        requires node { IsNode self.now node.now }
        requires worth { worth ≡ worth_of self.now node.now }
        requires some { 1 ≤ worth }
        ensures text { IfOk result (λ text. text.items ≡ best_lines (2 ^ 37 - worth) (jobs_of node.now)) }
        ensures right { IfOk result (λ text. worth ≡ greatest (orders_tree self.now) → IsBestText self.now text.items) }
    {
        let mut text = Vec::new(alloc);
        push_numbers_line(&mut text, b"best", &[WHOLE - worth])?;
        push_jobs(&mut text, &node.jobs[..node.placed as usize])?;
        Ok(text)
    }

    /// The text of a makespan with a permitted gap: the line `found L`, the line `within` with the gap, and the line `order` with
    /// the jobs in order.
    ///
    /// It takes a node with its worth, which is at least 1: that of a list of all jobs, 2^37 less the makespan L. The gap is by
    /// how much this makespan may exceed the least.
    ///
    /// # Errors
    ///
    /// `Memory` where the text finds no room.
    pub fn near_text(
        &self,
        alloc: Global,
        worth: u64,
        gap: u64,
        node: &FlowNode,
    ) -> Result<Vec<u8>, Memory>
        requires root { IsNode self.now (root_of self.now) }
        requires node { IsNode self.now node.now }
        requires worth { worth ≡ worth_of self.now node.now }
        requires some { 1 ≤ worth }
        ensures text { IfOk result (λ text. text.items ≡ near_lines (2 ^ 37 - worth) gap (jobs_of node.now)) }
        ensures right { IfOk result (λ text. greatest (orders_tree self.now) ≤ worth + gap → IsNearText self.now gap text.items) }
    {
        let mut text = Vec::new(alloc);
        push_numbers_line(&mut text, b"found", &[WHOLE - worth])?;
        push_numbers_line(&mut text, b"within", &[gap])?;
        push_jobs(&mut text, &node.jobs[..node.placed as usize])?;
        Ok(text)
    }
}
