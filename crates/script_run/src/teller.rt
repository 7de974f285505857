//! Judges that can write their packets' lines.
use packet_pool::{ChainJudge, Judge, LookupJudge};
use rule_chain::write_judged;
use set_model::{Lines, Memory};
use set_report::write_lines;

/// A judge that also writes the lines of the packets that it has judged.
pub trait Teller: Judge {
    ghost use Rattle.std.specs.Prelude.{◌≡◌, ◌++◌, ℕ, List, All, OnOk};
    ghost use Rattle.set_model.specs.declared.report.Line.{Line as PacketLine};
    ghost use Rattle.script_run.specs.Telling.{IsLineOf};

    // The text of packets' lines.
    ghost packets_text: { Self → List PacketLine → List ℕ };

    /// Appends the lines of packets, in their order.
    ///
    /// # Errors
    ///
    /// `Memory` if memory runs out.
    fn write(&self, lines: &Lines, out: &mut Vec<u8>) -> Result<(), Memory>
        requires { All (IsLineOf (Self.verdict self.now)) lines.now }
        ensures { OnOk result (out.new.items ≡ out.old.items ++ packets_text self.now lines.now) };
}

impl Teller for LookupJudge {
    ghost use Rattle.set_model.specs.Text.{lines_text};

    ghost packets_text = { λ _ lines. lines_text lines };

    fn write(&self, lines: &Lines, out: &mut Vec<u8>) -> Result<(), Memory> {
        write_lines(lines, out)
    }
}

impl Teller for ChainJudge {
    ghost use Rattle.rule_chain.specs.JudgedText.{judged_text};

    ghost packets_text = { λ j lines. judged_text j.chains lines };

    fn write(&self, lines: &Lines, out: &mut Vec<u8>) -> Result<(), Memory> {
        write_judged(&self.chains, lines, out)
    }
}
