// The numbers of a line, in the form that a sheet takes them.
ghost use Rattle.std.specs.Prelude.{◌≡◌, ℤ, map, unsigned_abs};
ghost use Rattle.inline_list.specs.Items.{items};

use grammar::Line;
use inline_list::InlineList;

// What a sheet takes for a number of the file.
pub(crate) trait Value: Copy {
    ghost of: { ℤ → Self };

    fn of_number(number: i32) -> Self
        ensures { result ≡ of number };
}

// An effect of a place.
impl Value for i32 {
    ghost of = { λ z. z };

    fn of_number(number: i32) -> i32 {
        number
    }
}

// A count of a question.
impl Value for u32 {
    ghost of = { λ z. unsigned_abs z };

    fn of_number(number: i32) -> u32 {
        number.unsigned_abs()
    }
}

// The values of the numbers of a line, as many as are kept.
pub(crate) fn values_of<V: Value>(line: &Line) -> InlineList<V, 25>
    ensures { items result ≡ map (λ f. V.of f.value) (items line.now.fields) }
{
    let mut values = InlineList::new(V::of_number(0));
    for field in line.fields.as_slice() {
        // There is room: the fields themselves are at most 25.
        values.push(V::of_number(field.value)).unwrap();
    }
    values
}
