// Seconds in hours, as the ledger takes them: one binary64 number.
#![tactic(auto)]

ghost use Rattle.std.specs.Prelude.{◌≡◌, ◌<◌, ◌^◌};
ghost use Rattle.hour_numbers.specs.Hours.{hours_of};

// Whole seconds in hours. Below 2 to the 53rd they are a binary64 number without loss, so the division alone is rounded.
pub fn hours(seconds: u64) -> f64
    requires { seconds < 2 ^ 53 }
    ensures { result ≡ hours_of seconds }
{
    (seconds as f64) / 3600.0
}
