// What holds of every run of calls of devices. Each law is a function without code.
ghost use Rattle.std.specs.Prelude.{◌≡◌, ◌↔◌, ℕ, Bool, IsTrue, List};
ghost use Rattle.pac_outside.specs.Devices.{RunLeaves, WhichDevice, with_device};
ghost use Rattle.pac_outside.specs.Disk.{DiskHistory, HasImages};
ghost use Rattle.pac_outside.specs.Parts.{reads_of};
ghost use Rattle.pac_outside.specs.Runs.{AllHaveImages, EachIsPassed, IsMoment, IsNotSeven, OneGoesOn, empty_disk, was_seven};
ghost use Rattle.pac_outside.specs.declared.devices.Devices.{Devices as ADevices};

/// A run goes through each state that one of its devices says: at some moment of it this device is in that state, each of
/// the others is in one that it says, and a crash leaves only what is allowed.
pub fn each_state_is_passed()
    ensures { (allowed : ADevices (List ℕ) → Bool) (old new : ADevices DiskHistory) → RunLeaves (λ images. IsTrue (allowed images)) old new
        → (which : WhichDevice) → EachIsPassed (λ images. IsTrue (allowed images)) old new which }
{}

/// Where what a read gives is an image in each state, what reads of all devices give at a moment of a run is allowed.
pub fn a_moment_is_allowed()
    ensures { (allowed : ADevices (List ℕ) → Bool) (old new moment : ADevices DiskHistory) → AllHaveImages new
        → IsMoment (λ images. IsTrue (allowed images)) old new moment → IsTrue (allowed (reads_of moment)) }
{}

/// A run in which one device alone goes on says of each of its states that a crash leaves only what is allowed, and says no
/// more.
pub fn one_device_runs()
    ensures { (allowed : ADevices (List ℕ) → Bool) (which : WhichDevice) (devices : ADevices DiskHistory) (new : DiskHistory)
        → RunLeaves (λ images. IsTrue (allowed images)) devices (with_device which new devices) ↔ OneGoesOn (λ images. IsTrue (allowed images)) which devices new }
{}

/// A state between counts: a log was empty and is empty, and held the byte 7 in between, which isn't allowed. Then there is
/// no run, whatever the other devices do of which each state has an image.
pub fn a_state_between_counts()
    ensures { (old new : ADevices DiskHistory) → old.log ≡ empty_disk → new.log ≡ was_seven
        → HasImages new.log_b → HasImages new.slot_a → HasImages new.slot_b → ¬ RunLeaves IsNotSeven old new }
{}
