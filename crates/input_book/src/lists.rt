//! How many entries a list has.

ghost use Rattle.std.specs.Prelude.{◌≡◌, option_map};
ghost use Rattle.toml.specs.View.{items_view};
ghost use Rattle.input_book.specs.Ranges.{some_items, items_to};

use toml::Value;

#[tactic(auto, using(crate::proofs::ItemLemmas::item_counts))]
pub fn some_items(items: &[Value]) -> Option<&[Value]>
    ensures { option_map (λ found. items_view found.now) result
        ≡ some_items (items_view items.now) }
{
    if items.is_empty() { None } else { Some(items) }
}

#[tactic(auto, using(crate::proofs::ItemLemmas::item_counts))]
pub fn items_to(most: usize, items: &[Value]) -> Option<&[Value]>
    ensures { option_map (λ found. items_view found.now) result
        ≡ items_to most (items_view items.now) }
{
    if 1 <= items.len() && items.len() <= most {
        Some(items)
    } else {
        None
    }
}
