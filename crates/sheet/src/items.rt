// The items of a sheet, one after the other.
ghost use Rattle.std.specs.Prelude.{◌≡◌, ◌≤◌, length};
ghost use Rattle.std.specs.Iterator.{YieldsFirstBy, item_count};
ghost use Rattle.definition.specs.Question.{open_question, leaf_count, ends_with_one, is_walk};
ghost use Rattle.definition.specs.Sheet.{question_of};
ghost use Rattle.sheet.specs.Views.{item_of};
ghost use Rattle.sheet.specs.ItemsLeft.{items_left};

use crate::{Item, Sheet};
use nodeset::LEAF;

// The items from number `next` on.
#[derive(Drop)]
pub struct Items<'a> {
    sheet: Sheet<'a>,
    next: usize,
}

impl Iterator for Items<'_> {
    type Item = Item;

    ghost next_gives = { YieldsFirstBy item_of items_left };

    ghost remaining = { item_count items_left };

    fn next(&mut self) -> Option<Item> {
        if self.sheet.sections.items.count <= self.next {
            return None;
        }
        let item = self.sheet.item(self.next);
        self.next += 1;
        Some(item)
    }
}

impl<'a> Sheet<'a> {
    // All items, in their order. That they are few shows callers that what they count or add up fits.
    pub fn items(&self) -> Items<'a>
        ensures items { items_left result ≡ (question_of self.now.bytes.now).items }
        ensures few { length (items_left result) ≤ 127 }
    {
        Items {
            sheet: *self,
            next: 0,
        }
    }

    // How many items are leaves.
    pub fn leaf_count(&self) -> u32
        ensures { result ≡ leaf_count (open_question (question_of self.now.bytes.now)).items }
    {
        self.items().filter(|item| item.kind == LEAF).count() as u32
    }

    // Leaves and joins, with their number on the pile: one remains at the end.
    fn ends_with_one(&self) -> bool
        ensures { result ≡ ends_with_one (open_question (question_of self.now.bytes.now)).items 0 }
    {
        let mut height: usize = 0;
        for item in self.items() {
            if item.kind == LEAF {
                height += 1;
            } else {
                if height < 2 {
                    return false;
                }
                height -= 1;
            }
        }
        height == 1
    }

    // Whether the items are a walk; no items are one.
    pub fn is_walk(&self) -> bool
        ensures { result ≡ is_walk (open_question (question_of self.now.bytes.now)).items }
    {
        if self.sections.items.count == 0 {
            return true;
        }
        self.ends_with_one()
    }
}
