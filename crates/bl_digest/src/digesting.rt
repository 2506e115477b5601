//! The digests of a plan's image, for one who feeds the files' bytes.
use crate::digests::Digests;
use crate::file_range::FileRange;
use crate::image_digest::ImageDigest;
use crate::image_hasher::ImageHasher;
use crate::message::Message;
use crate::part_digest::PartDigest;
use crate::step_taking::take_steps;
use bl_load::{Plan, Protocol, Registers, Steps};
use std::alloc::{AllocError, Allocator};
use std::marker::Model;

/// The digests of a plan's image under way. It says which range of which file it wants next, and
/// is fed the bytes, in pieces of any length; what the plan has itself, and zeros, it takes on its
/// own. It keeps of the plan what it needs, and no file. It needs no memory of the machine's size.
#[derive(Drop)]
pub struct Digesting<A: Allocator> {
    protocol: Protocol,
    registers: Registers,
    told: Steps<A>,
    hasher: ImageHasher<A>,

    /// What is left of the range that is wanted; nothing once all came. `next` is the step behind
    /// it.
    range: FileRange,
    next: usize,
    fed: Message,
}

impl<A: Allocator> Model for Digesting<A> {
    ghost use Rattle.bl_digest.specs.PlanInSteps.{PlanInSteps, DigestingFacts};
    ghost use Rattle.bl_digest.specs.internal.Filling.{IsUnderWay, plan_kept};

    ghost Value = { DigestingFacts };

    ghost view = { λ d. record {
      plan = plan_kept d.protocol d.registers d.hasher.places d.told.steps.items d.told.own;
      fed = d.fed.bytes;
    } };

    ghost invariant = { λ d. IsUnderWay
        (plan_kept d.protocol d.registers d.hasher.places d.told.steps.items d.told.own)
        d.fed.bytes d.hasher.front d.hasher.taken d.range d.next };
}

impl<A: Allocator + Copy> Digesting<A> {
    ghost use Rattle.std.specs.Prelude.{◌≡◌, ℕ, [], List, IfOk};
    ghost use Rattle.bl_load.specs.Loadable.{lengths_of, IsLoadable};
    ghost use Rattle.bl_load.specs.PlanContents.{handover_by};
    ghost use Rattle.bl_load.specs.Steps.{CanBeLoaded};
    ghost use Rattle.bl_digest.specs.PlanInSteps.{plan_in_steps, handover_in_steps};

    /// Begins: the front is hashed, and what comes before the first range of a file. It fails only
    /// where memory for the steps and a row for each part is refused.
    pub fn begin<B: Allocator>(alloc: A, plan: &Plan<B>) -> Result<Digesting<A>, AllocError>
        requires { CanBeLoaded plan.now }
        ensures begun { IfOk result (λ d. d ≡ record { plan = plan_in_steps plan.now; fed = [] }) }

        // The steps hand over what the plan does, out of all files with which it can be loaded.
        ensures handover { IfOk result (λ d. (texts : List (List ℕ)) (size : ℕ)
            → IsLoadable (lengths_of texts) size plan.now
            → handover_in_steps texts d.plan ≡ handover_by texts plan.now) }
    {
        let (protocol, registers) = (plan.protocol, plan.registers);
        let mut hasher = ImageHasher::new(alloc, protocol, &registers, plan)?;
        let told = plan.steps(alloc)?;
        let stop = take_steps(&mut hasher, &told, 0);
        Ok(Digesting {
            protocol,
            registers,
            told,
            hasher,
            range: stop.range,
            next: stop.next,
            fed: Message::empty(),
        })
    }
}

impl<A: Allocator> Digesting<A> {
    ghost use Rattle.std.specs.Prelude.{◌≡◌, ℕ, ◌++◌, List, length, None};
    ghost use Rattle.bl_digest.specs.Digests.{digests_of};
    ghost use Rattle.bl_digest.specs.PlanInSteps.{handover_in_steps, handover_fed};
    ghost use Rattle.bl_digest.specs.Ranges.{ranges_of, bytes_of_ranges, wanted_after};
    ghost use Rattle.bl_digest.specs.Ranges.{IsWithinWanted};

    /// What is wanted next: what is left of the range of a file whose bytes come now. The ranges
    /// come in the order of the plan's steps. None once all were fed.
    pub fn wanted(&self) -> Option<FileRange>
        ensures { result ≡ wanted_after (ranges_of self.now.plan.steps) (length self.now.fed) }
    {
        if self.range.length > 0 {
            Some(self.range)
        } else {
            None
        }
    }

    /// Takes the next bytes of what is wanted: all of them, or fewer.
    pub fn feed(&mut self, bytes: &[u8])
        requires { IsWithinWanted (wanted_after (ranges_of self.old.plan.steps)
            (length self.old.fed)) (length bytes.now) }
        ensures { self.new ≡ record { plan = self.old.plan; fed = self.old.fed ++ bytes.now } }
    {
        let count = bytes.len() as u64;
        self.hasher.take(bytes);
        self.fed = self.fed.with_part(bytes);
        self.range.offset = self.range.offset.wrapping_add(count);
        self.range.length -= count;
        if self.range.length == 0 {
            let stop = take_steps(&mut self.hasher, &self.told, self.next);
            self.range = stop.range;
            self.next = stop.next;
        }
    }

    /// The digests of the image and of its front, once nothing is wanted: those of what the plan
    /// hands over by the bytes that were fed. That is what it hands over out of all files whose
    /// ranges have these bytes.
    pub fn image(&self) -> ImageDigest
        requires { wanted_after (ranges_of self.now.plan.steps) (length self.now.fed) ≡ None }
        ensures fed { result ≡ (digests_of (handover_fed self.now)).image }
        ensures files { (texts : List (List ℕ))
            → self.now.fed ≡ bytes_of_ranges texts (ranges_of self.now.plan.steps)
            → result ≡ (digests_of (handover_in_steps texts self.now.plan)).image }
    {
        self.hasher.digest()
    }

    /// The digests of the parts, in address order, once nothing is wanted; as `image`.
    pub fn parts(&self) -> &[PartDigest]
        requires { wanted_after (ranges_of self.now.plan.steps) (length self.now.fed) ≡ None }
        ensures fed { result.now ≡ (digests_of (handover_fed self.now)).parts }
        ensures files { (texts : List (List ℕ))
            → self.now.fed ≡ bytes_of_ranges texts (ranges_of self.now.plan.steps)
            → result.now ≡ (digests_of (handover_in_steps texts self.now.plan)).parts }
    {
        self.hasher.rows()
    }

    /// The digests, once nothing is wanted; as `image` and `parts`.
    pub fn end(self) -> Digests<A>
        requires { wanted_after (ranges_of self.plan.steps) (length self.fed) ≡ None }
        ensures fed { result ≡ digests_of (handover_fed self) }
        ensures files { (texts : List (List ℕ))
            → self.fed ≡ bytes_of_ranges texts (ranges_of self.plan.steps)
            → result ≡ digests_of (handover_in_steps texts self.plan) }
    {
        let Digesting { hasher, .. } = self;
        hasher.end()
    }
}
