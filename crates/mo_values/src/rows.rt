//! Rows of the table, computed: what it says is what the language manual, its base library or another implementation says.
ghost use Rattle.std.specs.Prelude.{◌≡◌};
ghost use Rattle.mo_values.specs.CostRows.{cost_rows, wanted_costs};
ghost use Rattle.mo_values.specs.EqualityRows.{equalities, no_equalities};
ghost use Rattle.mo_values.specs.MessageRows.{read, sent, wanted_read, wanted_sent};
ghost use Rattle.mo_values.specs.NumberRows.{digits, limits, orders, powers, quotients, strangers, turns};
ghost use Rattle.mo_values.specs.PartRows.{made_parts, outside, taken_parts};
ghost use Rattle.mo_values.specs.Rows.{answers, costs, wanted};
ghost use Rattle.mo_values.specs.TextRows.{assertions, lengths, text_orders};

/// Numbers: `/`, `%` and `**` with signs and zero, the ends of each range, wrapping, order, digits.
pub fn numbers_are_as_wanted()
    ensures quotients { answers quotients ≡ wanted quotients }
    ensures powers { answers powers ≡ wanted powers }
    ensures limits { answers limits ≡ wanted limits }
    ensures turns { answers turns ≡ wanted turns }
    ensures orders { answers orders ≡ wanted orders }
    ensures strangers { answers strangers ≡ wanted strangers }
    ensures digits { answers digits ≡ wanted digits }
{}

/// Texts, characters and truth values; what traps.
pub fn texts_are_as_wanted()
    ensures orders { answers text_orders ≡ wanted text_orders }
    ensures lengths { answers lengths ≡ wanted lengths }
    ensures assertions { answers assertions ≡ wanted assertions }
{}

/// Equality at a type goes by the fields of that type alone.
pub fn equality_is_as_wanted()
    ensures equalities { answers equalities ≡ wanted equalities }
    ensures stuck { answers no_equalities ≡ wanted no_equalities }
{}

/// What goes into a message of a type, and what is made of it there.
pub fn messages_are_as_wanted()
    ensures sent { sent ≡ wanted_sent }
    ensures read { read ≡ wanted_read }
{}

/// Tuples, objects, arrays, actors and errors.
pub fn parts_are_as_wanted()
    ensures made { answers made_parts ≡ wanted made_parts }
    ensures taken { answers taken_parts ≡ wanted taken_parts }
    ensures outside { answers outside ≡ wanted outside }
{}

/// What some rows cost, whose answers are as wanted too.
pub fn costs_are_as_wanted()
    ensures rows { answers cost_rows ≡ wanted cost_rows }
    ensures costs { costs cost_rows ≡ wanted_costs }
{}
