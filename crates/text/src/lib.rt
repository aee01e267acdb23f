//! Texts that are put into an output, one behind the other. The caller shows that there is room.

#![tactic(auto)]

ghost use Rattle.std.specs.Prelude.{◌≡◌, ◌++◌};
ghost use Rattle.util.specs.Outcome.{result as answered};
ghost use Rattle.output.specs.Output.{Writes};
ghost use Rattle.errors.specs.Refusal.{result_outcome};
ghost use Rattle.text.specs.Text.{decimal};
ghost use Rattle.text.specs.Writer.{HasRoom, Adds};

use errors::Refusal;

/// An output, and the place behind what has been put into it.
#[derive(Drop)]
pub struct Writer<'a> {
    pub out: &'a mut [u8],
    pub at: usize,
}

impl<'a> Writer<'a> {
    /// At the start of an output.
    pub fn new(out: &'a mut [u8]) -> Writer<'a>
        ensures same_output { result.out ≡ out.entry }
        ensures at_start { result.at ≡ 0 }
    {
        Writer { out, at: 0 }
    }

    #[tactic(auto, using(crate::proofs::Puts::put_copy))]
    pub fn put(&mut self, text: &[u8])
        requires { HasRoom text.now self.old }
        ensures { Adds text.now self.old self.new }
    {
        let end = self.at + text.len();
        self.out[self.at..end].copy_from_slice(text);
        self.at = end;
    }

    /// A field, and the space or line end behind it.
    #[tactic(auto, using(crate::proofs::Puts::puts))]
    pub fn put_field(&mut self, text: &[u8], end: &[u8])
        requires { HasRoom (text.now ++ end.now) self.old }
        ensures { Adds (text.now ++ end.now) self.old self.new }
    {
        self.put(text);
        self.put(end);
    }

    /// A number in decimal, and the space or line end behind it.
    #[tactic(auto, using(crate::proofs::Decimals::decimal_digits))]
    pub fn put_number(&mut self, n: usize, end: &[u8])
        requires { HasRoom (decimal n ++ end.now) self.old }
        ensures { Adds (decimal n ++ end.now) self.old self.new }
    {
        let mut digits = [0u8; 20];
        let len = io::decimal(n as u64, &mut digits);
        self.put_field(&digits[..len], end);
    }
}

/// Writes a text to an output that has room for it.
#[tactic(auto, using(crate::proofs::Puts::whole, output::proofs::Outputs::sets_start))]
pub fn write(text: &[u8], out: &mut [u8]) -> Result<usize, Refusal>
    ensures { Writes (answered text.now) out.old (result_outcome result) out.new }
{
    if out.len() < text.len() {
        return Err(Refusal::Output);
    }
    out[..text.len()].copy_from_slice(text);
    Ok(text.len())
}
