//! What an image says.
use bl_load::{Protocol, Registers};
use bl_mem::Bytes;
use bl_plan::Role;
use std::alloc::Allocator;
use std::marker::Model;

/// A part of an image: its role, its index among those of its role, its address, its bytes.
#[derive(Drop)]
pub struct ImagePart<A: Allocator> {
    role: Role,
    index: u32,
    address: u64,
    bytes: Bytes<A>,
}

impl<A: Allocator> Model for ImagePart<A> {
    ghost use Rattle.bl_load.specs.Handover.{Part};

    ghost Value = { Part };

    ghost view = { λ p. record {
      role = p.role;
      index = p.index;
      address = p.address;
      bytes = p.bytes;
    } };
}

impl<A: Allocator> ImagePart<A> {
    ghost use Rattle.std.specs.Prelude.{◌≡◌, length};

    /// A part with these bytes, the first of them at `address`.
    pub(crate) fn new(role: Role, index: u32, address: u64, bytes: Bytes<A>) -> ImagePart<A>
        ensures { result ≡ record { role = role; index = index; address = address; bytes = bytes } }
    {
        ImagePart {
            role,
            index,
            address,
            bytes,
        }
    }

    /// What the part is.
    pub fn role(&self) -> Role
        ensures { result ≡ self.now.role }
    {
        self.role
    }

    /// Its place among the kernel's segments or among the modules, from 0.
    pub fn index(&self) -> u32
        ensures { result ≡ self.now.index }
    {
        self.index
    }

    /// The address of its first byte.
    pub fn address(&self) -> u64
        ensures { result ≡ self.now.address }
    {
        self.address
    }

    /// Its bytes, one or more in an image.
    pub fn bytes(&self) -> &[u8]
        ensures { result.now ≡ self.now.bytes }
    {
        self.bytes.as_slice()
    }
}

/// What an image says: the protocol, the registers as the kernel begins, and the parts with their
/// bytes in address order. There are at most 256 parts; none is empty, each begins at or after the
/// end of the one before, and none ends above 4 GiB.
#[derive(Drop)]
pub struct Image<A: Allocator> {
    protocol: Protocol,
    registers: Registers,
    parts: Vec<ImagePart<A>, A>,
}

impl<A: Allocator> Model for Image<A> {
    ghost use Rattle.bl_load.specs.Handover.{Handover};
    ghost use Rattle.bl_load.specs.HandoffFacts.{IsWellFormedHandoff};
    ghost use Rattle.bl_image.specs.ImageHandover.{handoff_of};

    ghost Value = { Handover };

    ghost view = { λ i. record {
      protocol = i.protocol;
      registers = i.registers;
      parts = i.parts.items;
    } };

    ghost invariant = { λ i. IsWellFormedHandoff (handoff_of (record {
      protocol = i.protocol;
      registers = i.registers;
      parts = i.parts.items;
    })) };
}

impl<A: Allocator> Image<A> {
    ghost use Rattle.std.specs.Prelude.{◌≡◌, ◌<◌, length, slice_get, Some, AllPairs};
    ghost use Rattle.bl_load.specs.HandoffFacts.{IsWellFormedHandoff};
    ghost use Rattle.bl_image.specs.ImageHandover.{handoff_of, PartAscends};

    /// An image with these parts.
    pub(crate) fn new(
        protocol: Protocol,
        registers: Registers,
        parts: Vec<ImagePart<A>, A>,
    ) -> Image<A>
        requires { IsWellFormedHandoff (handoff_of
            (record { protocol = protocol; registers = registers; parts = parts.items })) }
        ensures { result
            ≡ record { protocol = protocol; registers = registers; parts = parts.items } }
    {
        Image {
            protocol,
            registers,
            parts,
        }
    }

    /// How the kernel is entered.
    pub fn protocol(&self) -> Protocol
        ensures { result ≡ self.now.protocol }
    {
        self.protocol
    }

    /// The registers as the kernel begins.
    pub fn registers(&self) -> Registers
        ensures { result ≡ self.now.registers }
    {
        self.registers
    }

    /// How many parts there are, at most 256.
    pub fn len(&self) -> usize
        ensures len { result ≡ length self.now.parts }
        ensures kept { IsWellFormedHandoff (handoff_of self.now) }
    {
        self.parts.len()
    }

    /// The part with this number in address order.
    pub fn part(&self, index: usize) -> &ImagePart<A>
        requires { index < length self.now.parts }
        ensures { slice_get self.now.parts index ≡ Some result.now }
    {
        &self.parts[index]
    }

    /// All parts, in address order.
    pub fn parts(&self) -> &[ImagePart<A>]
        ensures parts { result.now ≡ self.now.parts }
        ensures ascending { AllPairs PartAscends result.now }
        ensures kept { IsWellFormedHandoff (handoff_of self.now) }
    {
        self.parts.as_slice()
    }
}
