// Lists of numbers and of spans of bytes.
ghost use Rattle.std.specs.List.{list_any};
ghost use Rattle.std.specs.Prelude.{◌≡◌, ◌&&◌, nat_le, nat_lt};

use item_list::ItemList;

/// A list of block numbers, bit numbers or call numbers.
pub type BlockList = ItemList<u32>;

/// A list of byte spans of a page: each from its first byte up to but not including its second.
pub type SpanList = ItemList<(u32, u32)>;

/// Whether a byte of a page is in one of these spans.
pub fn covers(spans: &SpanList, offset: u32) -> bool
    ensures { result ≡ list_any (λ s. nat_le s.0 offset && nat_lt offset s.1) spans.now }
{
    spans.iter().any(|span| span.0 <= offset && offset < span.1)
}
