//! The line of a page.
ghost use Rattle.std.specs.Prelude.{◌≡◌, ◌++◌, ◌+◌, ◌≤◌, OnErr, OnOk};
ghost use Rattle.arrayvec.specs.ArrayString.{array_string_len};
ghost use Rattle.fax_files.specs.Page.{fill_order_of};
ghost use Rattle.fax_tool.specs.Text.{and_coding, and_fraction, page_line_of};

use crate::text::output_buffer::OutputBuffer;
use crate::text::push_number;
use arrayvec::ArrayString;
use fax_bits::Memory;
use fax_files::{Coding, FillOrder, PageForm};
use itoa::Buffer;

/// The line of a page, which is made without memory.
type PageLine = ArrayString<136>;

/// A coding's name, after a blank.
fn coding_text(coding: Coding) -> &'static str
    ensures { result.now ≡ and_coding coding }
{
    match coding {
        Coding::Mh => " mh",
        Coding::Mr => " mr",
        Coding::Mmr => " mmr",
    }
}

/// A fill order's number.
fn order_number(order: FillOrder) -> u32
    ensures { result ≡ fill_order_of order }
{
    match order {
        FillOrder::MsbFirst => 1,
        FillOrder::LsbFirst => 2,
    }
}

/// Appends a blank and a fraction: two numbers in decimals with a stroke between them.
fn push_fraction(line: &mut PageLine, value: (u32, u32))
    requires { array_string_len line.old + 22 ≤ 136 }
    ensures text { line.new.bytes ≡ line.old.bytes ++ and_fraction value }
    ensures len { array_string_len line.new ≤ array_string_len line.old + 22 }
{
    let (over, under) = value;
    let mut digits = Buffer::new();
    push_number(line, over);
    line.push_str("/");
    line.push_str(digits.format(under));
}

/// The line of a page: `page P`, the numbers of its form, and its resolution.
#[tactic(auto, unfolding(crate::specs::Text::page_line_of))]
fn page_line(page: u32, form: &PageForm) -> PageLine
    ensures { result.bytes ≡ page_line_of page form.now }
{
    let mut line = PageLine::new();
    line.push_str("page");
    push_number(&mut line, page);
    push_number(&mut line, form.width);
    push_number(&mut line, form.rows);
    line.push_str(coding_text(form.coding));
    push_number(&mut line, order_number(form.order));
    push_number(&mut line, u32::from(form.exchanged));
    push_number(&mut line, form.strips);
    push_fraction(&mut line, form.x);
    push_fraction(&mut line, form.y);
    push_number(&mut line, u32::from(form.unit));
    line.push_str("\n");
    line
}

/// Appends the line of a page.
pub fn put_page_line(text: &mut OutputBuffer, page: u32, form: &PageForm) -> Result<(), Memory>
    ensures ok { OnOk result (text.new ≡ text.old ++ page_line_of page form.now) }
    ensures err { OnErr result (text.new ≡ text.old) }
{
    text.put(page_line(page, form).as_str())
}
