ghost use Rattle.std.specs.Prelude.{◌≡◌, ◌+◌, ◌<◌, ◌^◌, MatchOption};
ghost use Rattle.fused_lookup.specs.Window.{is_touched, HasBlocks, IsWidened, IsNextWord, AreUntouched};

/// The words of a row in which places may be set: from word `first` up to word `end`, if they are
/// in a touched block of eight words.
#[derive(Clone, Copy, Debug, PartialEq, Eq)]
pub struct Window {
    /// The first word.
    pub first: u32,
    /// The word after the last one.
    pub end: u32,
    /// Which blocks of eight words were touched. Bit k is for block k and each 64th block after it.
    pub touched: u64,
}

impl Window {
    /// No words.
    #[inline(always)]
    pub fn none() -> Window
        ensures { result.end ≡ 0 }
    {
        Window {
            first: u32::MAX,
            end: 0,
            touched: 0,
        }
    }

    /// The window, widened by the words of the `n` places from `from` on.
    #[inline(always)]
    pub(crate) fn widened(self, from: u32, n: u32) -> Window
        requires { from + n < 2 ^ 32 }
        ensures { IsWidened self from n result }
    {
        if n == 0 {
            return self;
        }
        Window {
            first: self.first.min(from / 64),
            end: self.end.max((from + n - 1) / 64 + 1),
            touched: with_blocks(self.touched, from / 512, (from + n - 1) / 512 + 1),
        }
    }

    /// Whether word `i` is in a touched block.
    #[inline(always)]
    fn is_touched(self, i: u32) -> bool
        ensures { result ≡ is_touched self i }
    {
        self.touched >> (i / 8 % 64) & 1 == 1
    }

    /// The first touched word of the window that is not below `from`, if there is one.
    #[inline(always)]
    pub(crate) fn next_word(self, from: u32) -> Option<u32>
        requires { self.end + 8 < 2 ^ 32 }
        ensures { MatchOption result (AreUntouched self from self.end) (IsNextWord self from) }
    {
        let mut i = from;
        'passed: while i < self.end {
            if self.is_touched(i) {
                return Some(i);
            }
            i = (i / 8 + 1) * 8;
        }
        None
    }
}

/// Also touches the blocks from block `first` up to block `end`.
#[inline(always)]
fn with_blocks(touched: u64, first: u32, end: u32) -> u64
    ensures { HasBlocks touched first end result }
{
    let mut touched = touched;
    'numbers: for b in first..end {
        touched |= 1u64 << (b % 64);
    }
    touched
}
