ghost use Rattle.std.specs.Prelude.{◌≡◌, length};
ghost use Rattle.std.specs.Vec.{vec_capacity};
ghost use Rattle.lookup_table.specs.Table.{IsShaped};
ghost use Rattle.lookup_table.specs.Summary.{IsSummed};

use crate::lines::Lines;
use crate::marks::mark_blocks;
use crate::summary::{add_pages, mark_added, pages_for, renew_pages, words_of};
use crate::tops::{RULES_WITHOUT_TOPS, add_tops, renew_tops, tops_for};
use crate::widths::halves_of;
use bit_rows::BitRow;
use field_groups::{LastFour, group_count, group_mask, group_value};
use set_model::{Block, Memory};
use shared_pages::{Page, copy_plain_pages, own_plain_pages, settle_plain_pages};
use std::alloc::Global;
use word_summary::candidates;

/// The lookup table of a field.
///
/// `bits` is the number of bits of the field, `width` the number of bits of a group, and `rules`
/// the number of rules. The bucket of value `v` of group `g` is at place `g * 2^width + v`; group 0
/// has the most significant bits. Bit `r` of this bucket says whether `v` agrees with rule `r`'s
/// block, on the bits that the block fixes in the group.
///
/// A summed table has a summary of its rules as soon as it has more than 64. A page of marks covers
/// 4,096 rules, and `candidates` reads it. The summary is made from the buckets, and doesn't depend
/// on the width. Above 32,768 rules the pages have tops, one for each 64 pages, which
/// `candidate_pages` reads.
///
/// The buckets are in pages of 512 rules. Copies share these pages and the pages of marks once the
/// table is settled. A change writes only pages that are the table's own: call
/// [`FieldTable::reserve`] or [`FieldTable::own_from`] before it. Each list of pages has exactly
/// the capacity that it uses. An addition or a deletion leaves the number of pages, so it takes no
/// memory.
#[derive(Drop)]
pub struct FieldTable {
    /// How many bits a group has: 4 or 8.
    pub width: u32,
    /// How many bits a value of the field has.
    pub bits: u32,
    /// How many rules there are.
    pub rules: u32,
    /// The buckets, in pages of 512 rules.
    pub buckets: Lines,
    /// Whether it has a summary of its rules.
    pub is_summed: bool,
    /// The marks, one page for each 4,096 rules.
    pub pages: Vec<Page<u64>>,
    /// The tops, one for each 64 pages of marks.
    pub tops: Vec<Page<u64>>,
    pub ghost shaped: { IsShaped width bits rules buckets.rows },
    pub ghost summed: { IsSummed 64 width bits rules buckets.rows pages.items },
    pub ghost topped: { IsSummed 4096 width bits rules buckets.rows tops.items },
    pub ghost full: { vec_capacity pages ≡ length pages.items },
    pub ghost full_tops: { vec_capacity tops ≡ length tops.items },
}

impl FieldTable {
    ghost use Rattle.std.specs.Prelude.{◌≡◌, ℕ, ◌+◌, ◌*◌, ◌/◌, ◌^◌, ◌<◌, ◌≤◌, ◌&&◌, true, false, List, [], ◌∷◌, ◌++◌, length, get_or, replicate, ◌-◌, All, IfOk, OnOk};
    ghost use Rattle.set_model.specs.declared.block.Block.{Block};
    ghost use Rattle.set_model.specs.Blocks.{holds_value, IsWithin};
    ghost use Rattle.bit_rows.specs.Row.{bit};
    ghost use Rattle.field_groups.specs.Groups.{IsWidth, meets, share_value};
    ghost use Rattle.field_groups.specs.LastFour.{AreLastFour};
    ghost use Rattle.shared_pages.specs.Paged.{owns_of};
    ghost use Rattle.lookup_table.specs.Table.{rooms_of, bucket_bits};
    ghost use Rattle.lookup_table.specs.Lines.{IsPage};
    ghost use Rattle.lookup_table.specs.Rules.{Stands, IsOwn, IsAsOwn, IsShared, IsSameField, KeepsRules, AppendsRules, DropsRules, KeepsWhere, place_of};
    ghost use Rattle.lookup_table.specs.Rows.{IsJoined, IsWide, halves_start, halves_step};
    ghost use Rattle.lookup_table.specs.Candidates.{LeavesNone};

    /// A table without rules, in groups of eight bits. `bits`, the number of bits of the field, is
    /// a multiple of 8 from 8 to 128.
    ///
    /// # Errors
    /// `Memory` if memory runs out.
    pub fn new(alloc: Global, bits: u32) -> Result<FieldTable, Memory>
        requires { IsWidth 8 bits }
        ensures width { IfOk result (λ t. t.width ≡ 8) }
        ensures bits { IfOk result (λ t. t.bits ≡ bits) }
        ensures rules { IfOk result (λ t. t.rules ≡ 0) }
        ensures stands { IfOk result (λ t. Stands t []) }
    {
        let buckets = Lines::zeros(alloc, bits / 8 * 256, 0)?;
        Ok(FieldTable {
            width: 8,
            bits,
            rules: 0,
            buckets,
            is_summed: false,
            pages: Vec::new(alloc),
            tops: Vec::new(alloc),
        })
    }

    /// Sets whether the table keeps a summary of its rules. It takes effect with the next
    /// [`FieldTable::reserve`].
    pub fn set_summed(&mut self, is_summed: bool)
        ensures summed { self.new.is_summed ≡ is_summed }
        ensures same { IsSameField self.old self.new }
        ensures rules { self.new.rules ≡ self.old.rules }
        ensures buckets { self.new.buckets ≡ self.old.buckets }
    {
        self.is_summed = is_summed;
    }

    /// How many groups the field has.
    #[inline(always)]
    pub fn groups(&self) -> u32
        ensures { result ≡ self.now.bits / self.now.width }
    {
        group_count(self.width, self.bits)
    }

    /// The place of the bucket of the value's group `g`.
    #[inline(always)]
    pub fn place(&self, value: u128, g: u32) -> usize
        requires group { g < self.now.bits / self.now.width }
        requires value { value < 2 ^ self.now.bits }
        ensures place { result ≡ place_of self.now g value }
        ensures within { result < length self.now.buckets.rows }
    {
        self.place_in(self.width, self.bits, value, g)
    }

    /// The place of the bucket of the value's group `g`. The caller brings the table's width and
    /// bits, which the compiler then knows.
    #[inline(always)]
    pub(crate) fn place_in(&self, width: u32, bits: u32, value: u128, g: u32) -> usize
        requires width { width ≡ self.now.width }
        requires bits { bits ≡ self.now.bits }
        requires group { g < self.now.bits / self.now.width }
        requires value { value < 2 ^ self.now.bits }
        ensures place { result ≡ place_of self.now g value }
        ensures within { result < length self.now.buckets.rows }
    {
        let v = group_value(value, width, bits, g);
        ((g as usize) << width) + v as usize
    }

    /// The page with word `i` of each bucket: a line of eight words for each.
    #[inline(always)]
    pub fn page(&self, i: u32) -> &[u64]
        requires { 64 * i < self.now.rules }
        ensures { IsPage self.now.buckets.rows (i / 8) result.now }
    {
        self.buckets.page(i / 8)
    }

    /// Takes room for `n` more rules, on pages that are the table's own. It takes constant time if
    /// that room is there already. A table has at most 4,294,966,784 rules.
    ///
    /// # Errors
    /// `Memory` if memory runs out. The table is as it was.
    pub fn reserve(&mut self, n: u32) -> Result<(), Memory>
        requires { self.old.rules + n + 512 ≤ 2 ^ 32 }
        ensures same { IsSameField self.old self.new }
        ensures rules { self.new.rules ≡ self.old.rules }
        ensures bits { bucket_bits self.new.buckets.rows ≡ bucket_bits self.old.buckets.rows }
        ensures stands { KeepsRules self.old self.new }
        ensures spare { OnOk result (All (λ row. n ≤ row.spare) self.new.buckets.rows) }
        ensures own { OnOk result (IsOwn self.old.rules (self.old.rules + n) self.new) }
    {
        self.buckets.reserve(n)?;
        let end = self.rules + n;
        self.take_pages(
            pages_for(self.is_summed, end),
            tops_for(self.is_summed, end),
        )?;
        self.own_summary(self.rules, end)
    }

    /// Makes the pages of the rules from `first` on, and of the summary above them, the table's own.
    ///
    /// # Errors
    /// `Memory` if memory runs out. The table is as it was.
    pub fn own_from(&mut self, first: u32) -> Result<(), Memory>
        ensures same { IsSameField self.old self.new }
        ensures rules { self.new.rules ≡ self.old.rules }
        ensures buckets { self.new.buckets.rows ≡ self.old.buckets.rows }
        ensures own { OnOk result (IsOwn first self.old.rules self.new) }
    {
        self.buckets.own_from(first)?;
        self.own_summary(first, self.rules)
    }

    /// Makes the pages of the summary above the rules from `from` up to `to` the table's own.
    ///
    /// # Errors
    /// `Memory` if memory runs out. The table is as it was.
    fn own_summary(&mut self, from: u32, to: u32) -> Result<(), Memory>
        ensures same { IsSameField self.old self.new }
        ensures rules { self.new.rules ≡ self.old.rules }
        ensures buckets { self.new.buckets ≡ self.old.buckets }
        ensures own { OnOk result ((r : ℕ) → from ≤ r → r < to → get_or (owns_of self.new.pages.items) (r / 4096) true ≡ true) }
        ensures tops { OnOk result ((r : ℕ) → from ≤ r → r < to → get_or (owns_of self.new.tops.items) (r / 262144) true ≡ true) }
    {
        let alloc = *self.pages.allocator();
        let end = self.pages.len().min(to.div_ceil(4096) as usize);
        own_plain_pages(alloc, &mut self.pages, from as usize / 4096, end)?;
        let end = self.tops.len().min(to.div_ceil(262_144) as usize);
        own_plain_pages(alloc, &mut self.tops, from as usize / 262_144, end)?;
        Ok(())
    }

    /// Adds pages to the summary, up to `pages` pages of marks and `tops` tops.
    ///
    /// # Errors
    ///
    /// `Memory` if memory runs out. The table then may have some of the new pages.
    fn take_pages(&mut self, pages: u32, tops: u32) -> Result<(), Memory>
        requires pages { pages ≤ 2 ^ 26 }
        requires tops { tops ≤ 2 ^ 26 }
        ensures same { IsSameField self.old self.new }
        ensures rules { self.new.rules ≡ self.old.rules }
        ensures buckets { self.new.buckets ≡ self.old.buckets }
    {
        let alloc = *self.pages.allocator();
        let (width, bits, rules) = (self.width, self.bits, self.rules);
        add_pages(
            alloc,
            &mut self.pages,
            pages,
            &self.buckets,
            width,
            bits,
            rules,
        )?;
        add_tops(
            alloc,
            &mut self.tops,
            tops,
            self.pages.as_slice(),
            bits,
            rules,
        )
    }

    /// Adds a rule with the next number. Each bucket must have room for it.
    pub fn add_block(&mut self, block: Block)
        requires spare { All (λ row. 1 ≤ row.spare) self.old.buckets.rows }
        requires own { IsOwn self.old.rules (self.old.rules + 1) self.old }
        requires within { IsWithin self.old.bits block }
        ensures same { IsSameField self.old self.new }
        ensures rules { self.new.rules ≡ self.old.rules + 1 }
        ensures room { rooms_of self.new.buckets.rows ≡ rooms_of self.old.buckets.rows }
        ensures whose { IsAsOwn self.old self.new }
        ensures stands { AppendsRules self.old self.new (block ∷ []) }
    {
        self.add_blocks(&[block]);
    }

    /// Adds rules with the next numbers. Each bucket must have room for them.
    pub fn add_blocks(&mut self, added: &[Block])
        requires spare { All (λ row. length added.now ≤ row.spare) self.old.buckets.rows }
        requires own { IsOwn self.old.rules (self.old.rules + length added.now) self.old }
        requires within { All (IsWithin self.old.bits) added.now }
        ensures same { IsSameField self.old self.new }
        ensures rules { self.new.rules ≡ self.old.rules + length added.now }
        ensures room { rooms_of self.new.buckets.rows ≡ rooms_of self.old.buckets.rows }
        ensures whose { IsAsOwn self.old self.new }
        ensures stands { AppendsRules self.old self.new added.now }
    {
        // The room bounds the number of blocks.
        let _room = self.buckets.room();
        let count = added.len() as u32;
        let before = self.rules;
        self.buckets.raise(count);
        mark_blocks(&mut self.buckets, added, self.width, self.bits, before);
        self.rules += count;
        mark_added(&mut self.pages, added, self.bits, before, 64);
        mark_added(&mut self.tops, added, self.bits, before, 4096);
    }

    /// Removes the `n` rules from `first` on. Later rules move down, on pages that are the table's
    /// own.
    pub fn drop_rules(&mut self, first: u32, n: u32)
        requires within { first + n ≤ self.old.rules }
        requires own { IsOwn first self.old.rules self.old }
        ensures same { IsSameField self.old self.new }
        ensures rules { self.new.rules + n ≡ self.old.rules }
        ensures room { rooms_of self.new.buckets.rows ≡ rooms_of self.old.buckets.rows }
        ensures whose { IsAsOwn self.old self.new }
        ensures stands { DropsRules self.old self.new first n }
    {
        if n == 0 {
            return;
        }
        let end = self.rules.div_ceil(512);
        self.buckets.close_up(first, n);
        self.rules -= n;
        renew_pages(
            &mut self.pages,
            &self.buckets,
            self.width,
            self.bits,
            first / 512,
            end,
        );
        renew_tops(
            &mut self.tops,
            self.pages.as_slice(),
            self.bits,
            first / 4096,
            end.div_ceil(8),
        );
    }

    /// Clears bit `r` of the row unless rule `r`'s block holds the value.
    pub fn match_into(&self, value: u128, row: &mut BitRow)
        requires length { length row.old.bits ≡ self.now.rules }
        requires value { value < 2 ^ self.now.bits }
        ensures length { length row.new.bits ≡ length row.old.bits }
        ensures spare { row.new.spare ≡ row.old.spare }
        ensures held { KeepsWhere self.now (λ rule. holds_value rule value) row.old row.new }
    {
        'groups: for g in 0..self.groups() {
            self.buckets.and_into(self.place(value, g) as u64, row);
        }
    }

    /// Candidates among the 64 words of rules from word `64 * p` on: the words that may have a rule
    /// whose block holds the value. Bit 0 is the first word.
    ///
    /// Without a summary all words that have rules are candidates. `lines` has the places of the
    /// lines of the value's last four bytes.
    #[inline(always)]
    pub fn candidates(&self, value: u128, lines: LastFour, p: u32) -> u64
        requires value { value < 2 ^ self.now.bits }
        requires lines { AreLastFour 8 self.now.bits value lines }
        ensures none { LeavesNone self.now value 64 p result }
        ensures within { (k : ℕ) → k < 64 → bit result k ≡ true → 64 * (64 * p + k) < self.now.rules }
    {
        let words = words_of(self.rules, p);
        match self.pages.get(p as usize) {
            Some(page) => words & candidates(page.as_slice(), value, self.bits, lines),
            None => words,
        }
    }

    /// Candidates among the 64 pages of 4,096 rules from page `64 * q` on: the pages that may have
    /// a rule whose block holds the value. Bit 0 is the first page.
    ///
    /// Without tops all pages that have rules are candidates. `lines` has the places of the lines
    /// of the value's last four bytes.
    #[inline(always)]
    pub fn candidate_pages(&self, value: u128, lines: LastFour, q: u32) -> u64
        requires value { value < 2 ^ self.now.bits }
        requires lines { AreLastFour 8 self.now.bits value lines }
        ensures none { LeavesNone self.now value 4096 q result }
        ensures within { (k : ℕ) → k < 64 → bit result k ≡ true → 4096 * (64 * q + k) < self.now.rules }
    {
        // A page has 64 words as a word has 64 rules.
        let pages = words_of(self.rules.div_ceil(64), q);
        if self.rules <= RULES_WITHOUT_TOPS {
            return pages;
        }
        match self.tops.get(q as usize) {
            Some(top) => pages & candidates(top.as_slice(), value, self.bits, lines),
            None => pages,
        }
    }

    /// Clears bit `r` of the row unless rule `r`'s block and this block share a value.
    ///
    /// `rest` must have room for the rules. It is overwritten, and has one place per rule
    /// afterwards.
    pub fn share_into(&self, block: Block, row: &mut BitRow, rest: &mut BitRow)
        requires length { length row.old.bits ≡ self.now.rules }
        requires room { self.now.rules ≤ length rest.old.bits + rest.old.spare }
        requires within { IsWithin self.now.bits block }
        ensures length { length row.new.bits ≡ length row.old.bits }
        ensures spare { row.new.spare ≡ row.old.spare }
        ensures shared { KeepsWhere self.now (λ rule. share_value rule block) row.old row.new }

        ensures rest { length rest.new.bits ≡ self.now.rules }
        ensures room { length rest.new.bits + rest.new.spare ≡ length rest.old.bits + rest.old.spare }
    {
        rest.fill(self.rules, false);
        'groups: for g in 0..self.groups() {
            self.share_group(block, g, row, rest);
        }
    }

    /// Clears bit `r` of the row unless some value of group `g` agrees with both rule `r`'s
    /// block and this block.
    fn share_group(&self, block: Block, g: u32, row: &mut BitRow, rest: &mut BitRow)
        requires group { g < self.now.bits / self.now.width }
        requires within { IsWithin self.now.bits block }
        requires length { length row.old.bits ≡ self.now.rules }
        requires rest { length rest.old.bits ≡ self.now.rules }
        ensures length { length row.new.bits ≡ self.now.rules }
        ensures spare { row.new.spare ≡ row.old.spare }
        ensures met { KeepsWhere self.now (λ rule. meets self.now.width self.now.bits rule block g) row.old row.new }
        ensures rest { length rest.new.bits ≡ self.now.rules }
        ensures room { length rest.new.bits + rest.new.spare ≡ length rest.old.bits + rest.old.spare }
    {
        let (base, mask) = group_mask(block, self.width, self.bits, g);
        let first = ((g as u64) << self.width) + (base & mask) as u64;
        let count = (1u64 << self.width) - mask as u64;
        // A block that fixes the whole group has one bucket, so it needs no OR of buckets. A group
        // that the block leaves free is skipped, since each rule agrees with some value of it.
        if count == 1 {
            self.buckets.and_into(first, row);
        } else if mask != 0 {
            rest.fill(self.rules, false);
            self.join_into(first, 1, count, rest);
            row.and_from(rest);
        }
    }

    /// Sets each place of the row that is set in one of the `n` buckets at `start`, `start + step`
    /// and so on. No place of the row is set before.
    fn join_into(&self, start: u64, step: u64, n: u64, row: &mut BitRow)
        requires row { row.old.bits ≡ replicate self.now.rules false }
        requires step { step ≤ 16 }
        requires some { 1 ≤ n }
        requires place { start + (n - 1) * step < length self.now.buckets.rows }
        ensures joined { IsJoined self.now.buckets.rows start step n self.now.rules row.new }
        ensures spare { row.new.spare ≡ row.old.spare }
    {
        'rows: for i in 0..n {
            self.buckets.or_into(start + i * step, row);
        }
    }

    /// The same rules in groups of `width` bits, which is 4 or 8.
    ///
    /// # Errors
    /// `Memory` if memory runs out.
    pub fn with_width(&self, alloc: Global, width: u32) -> Result<FieldTable, Memory>
        requires { IsWidth width self.now.bits }
        ensures width { IfOk result (λ t. t.width ≡ width) }
        ensures bits { IfOk result (λ t. t.bits ≡ self.now.bits) }
        ensures rules { IfOk result (λ t. t.rules ≡ self.now.rules) }
        ensures stands { IfOk result (KeepsRules self.now) }
    {
        if width == self.width {
            self.copy(alloc)
        } else if width == 8 {
            self.widened(alloc)
        } else {
            self.narrowed(alloc)
        }
    }

    /// The same rules in groups of eight bits, from groups of four.
    fn widened(&self, alloc: Global) -> Result<FieldTable, Memory>
        requires { self.now.width ≡ 4 }
        ensures width { IfOk result (λ t. t.width ≡ 8) }
        ensures bits { IfOk result (λ t. t.bits ≡ self.now.bits) }
        ensures rules { IfOk result (λ t. t.rules ≡ self.now.rules) }
        ensures stands { IfOk result (KeepsRules self.now) }
    {
        // The room bounds the number of rules.
        let _room = self.buckets.room();
        let mut buckets = Lines::zeros(alloc, self.bits / 8 * 256, self.rules)?;
        'rows: for j in 0..self.bits / 8 * 256 {
            let row = self.wide_bucket(alloc, j as u64)?;
            buckets.put(j as u64, &row);
        }
        let mut table = FieldTable {
            width: 8,
            bits: self.bits,
            rules: self.rules,
            buckets,
            is_summed: self.is_summed,
            pages: Vec::new(alloc),
            tops: Vec::new(alloc),
        };
        table.take_pages(self.pages.len() as u32, self.tops.len() as u32)?;
        Ok(table)
    }

    /// Bucket `j` in groups of eight bits, from groups of four. A rule is set if it is set for both
    /// halves of the value.
    fn wide_bucket(&self, alloc: Global, j: u64) -> Result<BitRow, Memory>
        requires width { self.now.width ≡ 4 }
        requires place { j < self.now.bits / 8 * 256 }
        ensures { IfOk result (IsWide self.now.buckets.rows self.now.rules j) }
    {
        let (g, v) = (j / 256, j % 256);
        let mut row = self.buckets.row(alloc, 2 * g * 16 + v / 16)?;
        self.buckets.and_into((2 * g + 1) * 16 + v % 16, &mut row);
        Ok(row)
    }

    /// The same rules in groups of four bits, from groups of eight.
    fn narrowed(&self, alloc: Global) -> Result<FieldTable, Memory>
        requires { self.now.width ≡ 8 }
        ensures width { IfOk result (λ t. t.width ≡ 4) }
        ensures bits { IfOk result (λ t. t.bits ≡ self.now.bits) }
        ensures rules { IfOk result (λ t. t.rules ≡ self.now.rules) }
        ensures stands { IfOk result (KeepsRules self.now) }
    {
        // The room bounds the number of rules.
        let _room = self.buckets.room();
        let mut buckets = Lines::zeros(alloc, self.bits / 4 * 16, self.rules)?;
        'rows: for j in 0..self.bits / 4 * 16 {
            let row = self.narrow_bucket(alloc, j as u64)?;
            buckets.put(j as u64, &row);
        }
        let mut table = FieldTable {
            width: 4,
            bits: self.bits,
            rules: self.rules,
            buckets,
            is_summed: self.is_summed,
            pages: Vec::new(alloc),
            tops: Vec::new(alloc),
        };
        table.take_pages(self.pages.len() as u32, self.tops.len() as u32)?;
        Ok(table)
    }

    /// Bucket `j` in groups of four bits, from groups of eight. A rule is set if it is set for some
    /// value with that half.
    fn narrow_bucket(&self, alloc: Global, j: u64) -> Result<BitRow, Memory>
        requires width { self.now.width ≡ 8 }
        requires place { j < self.now.bits / 4 * 16 }
        ensures { IfOk result (IsJoined self.now.buckets.rows (halves_start j) (halves_step j) 16 self.now.rules) }
    {
        let (start, step) = halves_of(j);
        let mut row = BitRow::zeros(alloc, self.rules)?;
        self.join_into(start, step, 16, &mut row);
        Ok(row)
    }

    /// Lets copies share all pages from now on. No word is copied.
    ///
    /// # Errors
    /// `Memory` if memory runs out. The table is as it was.
    pub fn settle(&mut self) -> Result<(), Memory>
        ensures same { IsSameField self.old self.new }
        ensures rules { self.new.rules ≡ self.old.rules }
        ensures buckets { self.new.buckets.rows ≡ self.old.buckets.rows }
        ensures common { OnOk result (IsShared self.new) }
    {
        self.buckets.settle()?;
        let alloc = *self.pages.allocator();
        settle_plain_pages(alloc, &mut self.pages)?;
        settle_plain_pages(alloc, &mut self.tops)?;
        Ok(())
    }

    /// A copy of the table, with the same room. It counts one reference for each settled page.
    ///
    /// # Errors
    /// `Memory` if memory runs out.
    pub fn copy(&self, alloc: Global) -> Result<FieldTable, Memory>
        ensures width { IfOk result (λ t. t.width ≡ self.now.width) }
        ensures bits { IfOk result (λ t. t.bits ≡ self.now.bits) }
        ensures rules { IfOk result (λ t. t.rules ≡ self.now.rules) }
        ensures buckets { IfOk result (λ t. t.buckets ≡ self.now.buckets) }
    {
        let buckets = self.buckets.copy(alloc)?;
        let pages = copy_plain_pages(alloc, self.pages.as_slice())?;
        let tops = copy_plain_pages(alloc, self.tops.as_slice())?;
        Ok(FieldTable {
            width: self.width,
            bits: self.bits,
            rules: self.rules,
            buckets,
            is_summed: self.is_summed,
            pages,
            tops,
        })
    }
}
