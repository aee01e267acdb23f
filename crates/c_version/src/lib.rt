//! The interface's version, so that a program can see that its header and its archive are of one.

#![tactic(auto)]

ghost use Rattle.std.specs.Prelude.{◌≡◌};

/// 10,000 times the first number of the version, 100 times the second, and the third: 0.2.0.
#[unsafe(no_mangle)]
pub extern "C" fn rasclanya_version() -> u32
    ensures { result ≡ 200 }
{
    200
}
