// Laws of moments: each function is a statement about the definitions, and does nothing.
ghost use Rattle.std.specs.Prelude.{◌≡◌, ℕ, ◌-◌, ◌^◌, ◌<◌, ◌≤◌, ◌⊎◌, ◌↔◌, List};
ghost use Rattle.sdls_outside.specs.Faults.{Rose};
ghost use Rattle.sdls_outside.specs.Disk.{Disk, Leaves, IsSynced};
ghost use Rattle.sdls_outside.specs.Moments.{Trace, clock, MomentSince, Continues};
ghost use Rattle.sdls_outside.specs.Site.{Sank};
ghost use Rattle.sdls_outside.specs.Crash.{LeftBy};
ghost use Rattle.sdls_outside.specs.declared.mem_site.Crash.{Crash};

/// Law: a count rose where it is greater than before, or stands at its last value.
pub fn rose()
    ensures { (before now : ℕ) → now < 2 ^ 64 → Rose before now ↔ ((before < now) ⊎ (now ≡ 2 ^ 64 - 1)) }
{}

/// Law: a moment of a longer run is a moment of its first part, or of its rest.
pub fn moment_of_a_part()
    ensures { (old new : Trace) (time : ℕ) (image sunk : List ℕ)
        → Continues old new → time ≤ clock old → MomentSince time new image sunk
        → MomentSince time old image sunk ⊎ MomentSince (clock old) new image sunk }
{}

/// Law: a moment since a later time is a moment since an earlier one.
pub fn moment_since_earlier()
    ensures { (trace : Trace) (early late : ℕ) (image sunk : List ℕ)
        → early ≤ late → MomentSince late trace image sunk → MomentSince early trace image sunk }
{}

/// Law: what a crash may leave now, with all that is sunk, is a moment since any time.
pub fn moment_of_now()
    ensures { (trace : Trace) (time : ℕ) (image : List ℕ)
        → Leaves trace.now image → MomentSince time trace image trace.now.sunk }
{}

/// Law: after a sync a crash leaves what a read gives; a `put` does not change that, so it is so
/// until the next write.
pub fn synced_until_written()
    ensures leaves { (disk : Disk) (image : List ℕ) → IsSynced disk → Leaves disk image → image ≡ disk.image }
    ensures sinks { (octets : List ℕ) (old new : Trace) → Sank octets old new → IsSynced old.now → IsSynced new.now }
{}

/// Law: what each kind of crash leaves is a moment, where the image as it reads is one. That it is
/// one is the law `image_may_stay` of each site.
pub fn crash_is_a_moment()
    ensures { (how : Crash) (trace : Trace) (image : List ℕ)
        → Leaves trace.now trace.now.image → LeftBy how trace.now image
        → MomentSince (clock trace) trace image trace.now.sunk }
{}
