//! A law of the definitions: the files after the kernel count by their lengths.
ghost use Rattle.std.specs.Prelude.{ℕ, List, map};
ghost use Rattle.bl_map.specs.MachineFacts.{MachineFacts};
ghost use Rattle.bl_load.specs.declared.entry.Entry.{Entry};
ghost use Rattle.bl_load.specs.declared.plan.Plan.{Plan};
ghost use Rattle.bl_load.specs.declared.refusal.PrepFault.{PrepFault};
ghost use Rattle.bl_load.specs.EntryValue.{value_of};
ghost use Rattle.bl_load.specs.FilesByLengths.{HaveKernelAndLengths};
ghost use Rattle.bl_load.specs.Origins.{PartOrigin, planned_origin, AreOrigins};
ghost use Rattle.bl_load.specs.Parts.{IsHandover, IsPrepFault};
ghost use Rattle.bl_load.specs.PlanContents.{handover_by};

use std::alloc::Allocator;

/// A plan of an entry with some files is one of the entry with all files that have the same kernel
/// and the same lengths, and so is a refusal: of the files after the kernel nothing else decides.
pub fn files_after_the_kernel_count_by_length<A: Allocator, B: Allocator>()
    ensures handover { (facts : MachineFacts) (entry : Entry A) (kernel lengths : List ℕ)
        (texts others : List (List ℕ)) (plan : Plan B)
        → HaveKernelAndLengths kernel lengths texts → HaveKernelAndLengths kernel lengths others
        → IsHandover facts (value_of texts entry) (handover_by texts plan)
        → AreOrigins facts (value_of texts entry) (map planned_origin plan.parts.items)
        → IsHandover facts (value_of others entry) (handover_by others plan) }
    ensures origins { (facts : MachineFacts) (entry : Entry A) (kernel lengths : List ℕ)
        (texts others : List (List ℕ)) (parts : List PartOrigin)
        → HaveKernelAndLengths kernel lengths texts → HaveKernelAndLengths kernel lengths others
        → AreOrigins facts (value_of texts entry) parts
        → AreOrigins facts (value_of others entry) parts }
    ensures fault { (facts : MachineFacts) (entry : Entry A) (kernel lengths : List ℕ)
        (texts others : List (List ℕ)) (fault : PrepFault)
        → HaveKernelAndLengths kernel lengths texts → HaveKernelAndLengths kernel lengths others
        → IsPrepFault facts (value_of texts entry) fault
        → IsPrepFault facts (value_of others entry) fault }
{}
