// The calls of an object in memory: each is counted, and those that are listed fail.
ghost use Rattle.std.specs.Prelude.{◌≡◌, ◌≤◌, true, false};
ghost use Rattle.dh_outside.specs.Faults.{Rose, one_more};
ghost use Rattle.dh_outside.specs.Memory.{is_listed};

/// Counts a call, and says whether it is one of those that fail; then it counts a fault, too.
pub(crate) fn fails(failing: &[u64], calls: &mut u64, faults: &mut u64) -> bool
    ensures listed { result ≡ is_listed failing.now calls.old }
    ensures calls { calls.new ≡ one_more calls.old }
    ensures keeps { faults.old ≤ faults.new }
    ensures rose { result ≡ true → Rose faults.old faults.new }
    ensures same { result ≡ false → faults.new ≡ faults.old }
{
    *calls = calls.saturating_add(1);
    if failing.contains(&*calls) {
        *faults = faults.saturating_add(1);
        return true;
    }
    false
}
