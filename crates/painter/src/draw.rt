// What the expressions of a style come to for the values of a feature.
ghost use Rattle.std.specs.Prelude.{◌≡◌};
ghost use Rattle.painter.specs.Given.{shown_by, colour_by, conditioned_by, coloured_by};
ghost use Rattle.painter.specs.Applied.{source, row_value, all_defined, show_rows, colour_rows, condition_rows, given_at};
ghost use Rattle.painter.specs.Applied as applied;

use crate::answer::Given;
use colour::colour::Colour;
use evaluator::evaluate::Scene;
use evaluator::operation::value_in;
use evaluator::values::{Values, store};
use plan::layout::{
    COLOUR, COLOURS, CONDITIONS, DEFINES, EXPRESSIONS, FIRST_CONDITION, FIRST_DEFINE,
    MOST_CONDITIONS, MOST_DEFINES, Plan, ROW, ROWS, SHOW, SHOWS,
};
use plan::numbers::number_at;
use std::marker::Model;
use value::texts::Texts;
use value::value::Value;

// A feature's line, and the head, the room and the plan of its style.
#[derive(Drop)]
pub(crate) struct Source<'a> {
    pub head: &'a [u8],
    pub feature: &'a [u8],
    pub room: &'a [u16],
    pub plan: &'a Plan,
}

impl<'a> Model for Source<'a> {
    ghost Value = { applied.Source };

    ghost view = { λ s. source s.head.now s.feature.now s.room.now s.plan.now };
}

impl Source<'_> {
    // The expression of a row. What lies outside head or room is Undefined.
    fn row_value(&self, values: &Values, row: usize) -> Value
        ensures { result ≡ row_value self.now values.now row }
    {
        if EXPRESSIONS <= row {
            return Value::Undefined;
        }
        let place = ROWS + ROW * row;
        let from = number_at(self.plan, place);
        let to = number_at(self.plan, place + 1);
        let root = number_at(self.plan, place + 2);
        let Some(style) = self.head.get(..to) else {
            return Value::Undefined;
        };
        let Some(slots) = self.room.get(from..to) else {
            return Value::Undefined;
        };
        let scene = Scene {
            texts: Texts {
                style,
                feature: self.feature,
            },
            slots,
            values,
            base: from,
        };
        value_in(scene.evaluate(root))
    }

    // The defines in turn; the value of each is stored for whoever names it.
    fn store_defines(&self, values: &mut Values)
        ensures { values.new ≡ all_defined self.now values.old }
    {
        for i in 0..number_at(self.plan, DEFINES).min(MOST_DEFINES) {
            let value = self.row_value(values, i);
            store(values, FIRST_DEFINE + i, value);
        }
    }

    // Without `show` a feature shows.
    fn show(&self, values: &Values) -> bool
        ensures { result ≡ shown_by (row_value self.now values.now) (show_rows self.now.plan) }
    {
        if number_at(self.plan, SHOWS) == 0 {
            return true;
        }
        self.row_value(values, SHOW).is_true()
    }

    // The colour of a row.
    fn colour(&self, values: &Values, row: usize) -> Option<Colour>
        ensures { result ≡ colour_by (row_value self.now values.now) row }
    {
        Some(self.row_value(values, row).colour().clamped())
    }

    // The conditions in turn: the colour of the first that is true.
    fn condition(&self, values: &Values) -> Option<Colour>
        ensures { result ≡ conditioned_by (row_value self.now values.now) (condition_rows self.now.plan) }
    {
        for k in 0..number_at(self.plan, CONDITIONS).min(MOST_CONDITIONS) {
            let row = FIRST_CONDITION + 2 * k;
            if self.row_value(values, row).is_true() {
                return self.colour(values, row + 1);
            }
        }
        None
    }

    // Without `color` and conditions a feature is white.
    fn colouring(&self, values: &Values) -> Option<Colour>
        ensures { result ≡ coloured_by (row_value self.now values.now)
            (colour_rows self.now.plan) (condition_rows self.now.plan) }
    {
        if 0 < number_at(self.plan, COLOURS) {
            self.colour(values, COLOUR)
        } else if 0 < number_at(self.plan, CONDITIONS) {
            self.condition(values)
        } else {
            Some(Colour::WHITE)
        }
    }

    // From the values of the properties: those of the defines come first.
    pub(crate) fn draw(&self, values: &mut Values) -> Given
        ensures given { result ≡ given_at self.now values.new }
        ensures defined { values.new ≡ all_defined self.now values.old }
    {
        self.store_defines(values);
        Given {
            show: self.show(values),
            colouring: self.colouring(values),
        }
    }
}
