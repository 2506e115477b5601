//! The law of segment registers and descriptors.
ghost use Rattle.std.specs.Prelude.{◌≡◌, List, IfSome};
ghost use Rattle.bl_mem.specs.LittleEndian.{u64_at};
ghost use Rattle.bl_plan.specs.declared.part.Place.{Place};
ghost use Rattle.bl_plan.specs.declared.protocol.Protocol.{Protocol};
ghost use Rattle.bl_load.specs.declared.segment_registers.SegmentName.{SegmentName};
ghost use Rattle.bl_load.specs.KernelReading.{KernelReading};
ghost use Rattle.bl_load.specs.Parts.{registers_of};
ghost use Rattle.bl_load.specs.Protocols.{descriptors_of};
ghost use Rattle.bl_load.specs.SegmentRegisters.{segment_in, descriptor};

/// If a kernel is handed descriptors, each segment register is what it would be loaded with from
/// them: the 8 bytes that its selector names, as a number, are the descriptor of that segment.
pub fn selectors_name_the_segments()
    ensures { (protocol : Protocol) (reading : KernelReading) (places : List Place)
        (name : SegmentName)
        → let segment = segment_in (registers_of protocol reading places) name in
        IfSome (descriptors_of protocol)
        (λ bytes. u64_at bytes segment.selector ≡ descriptor segment) }
{}
