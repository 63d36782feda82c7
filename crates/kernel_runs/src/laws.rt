//! What is proved of the runs of planned kernels. Each law is the contract of a function that does nothing, for
//! provers to call or cite.

ghost use Rattle.kernel_runs.specs.Body.{PlannedShares};
ghost use Rattle.kernel_runs.specs.Tensors.{TensorShares};

/// A planned function gives, on each cell that isn't flat, the sums over its reference tensors in A; on a flat one it
/// asks for the reciprocal of 0. The first clause says nothing of runs in which a step passes; by the second none
/// does on a cell on which each step fits.
pub fn planned_shares()
    ensures tensors { TensorShares }
    ensures fits { PlannedShares ⊥ }
{}
