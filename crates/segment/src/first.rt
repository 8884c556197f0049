// The first of many places that fails a test.
ghost use Rattle.std.specs.Prelude.{◌≡◌, ℕ, ◌<◌, Bool};
ghost use Rattle.std.specs.Result.{result_err};
ghost use Rattle.segment.specs.Items.{first_failing};

// Whether each place below the count passes, and else the first that does not.
pub(crate) fn all_pass<F: Fn(usize) -> bool>(count: usize, passes: F) -> Result<(), usize>
    requires { (i : ℕ) → i < count → F.pre passes i }
    ensures { (test : ℕ → Bool) → ((i : ℕ) (b : Bool) → i < count → F.post passes i b → b ≡ test i) → result_err result ≡ first_failing test 0 count }
{
    // a loop, since `find` with a closure that calls `passes` leaves what it found open
    for place in 0..count {
        if !passes(place) {
            return Err(place);
        }
    }
    Ok(())
}
