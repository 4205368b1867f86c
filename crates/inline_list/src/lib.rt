// Lists of few items: the items stand in the value itself, so that a list takes no memory and can be copied.
#![tactic(auto)]

ghost use Rattle.std.specs.Prelude.{◌≡◌, ◌≤◌, [], length};
ghost use Rattle.inline_list.specs.Items.{items, Roomy, Pushed, Copied};

mod list;

pub use list::InlineList;

// The list has no room for what was to be put into it.
#[derive(Clone, Copy, Debug)]
pub struct Full;

impl<T: Copy, const N: usize> InlineList<T, N> {
    // The empty list. The blank stands where no item is; it is never read.
    pub fn new(blank: T) -> Self
        ensures { items result ≡ [] }
    {
        InlineList {
            count: 0,
            slots: [blank; N],
        }
    }

    // The list of these items, refused where they are more than N.
    pub fn from_slice(all: &[T], blank: T) -> Result<Self, Full>
        ensures { Copied N all.now result }
    {
        let count = all.len();
        if count > N {
            return Err(Full);
        }
        let mut slots = [blank; N];
        slots[..count].copy_from_slice(all);
        Ok(InlineList { count, slots })
    }

    // Refused where there is no room for one item more.
    pub fn check_room(&self) -> Result<(), Full>
        ensures { Roomy N (items self.now) result }
    {
        if self.count >= N {
            return Err(Full);
        }
        Ok(())
    }

    // One item more at the end, refused where there are N.
    pub fn push(&mut self, item: T) -> Result<(), Full>
        ensures { Pushed N (items self.old) item result (items self.new) }
    {
        self.check_room()?;
        self.slots[self.count] = item;
        self.count += 1;
        Ok(())
    }

    // The items, first to last.
    pub fn as_slice(&self) -> &[T]
        ensures value { result.now ≡ items self.now }
        ensures few { length result.now ≤ N }
    {
        &self.slots[..self.count]
    }
}
