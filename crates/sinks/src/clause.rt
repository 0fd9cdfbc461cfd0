// Literals and clauses as the slices that hold them.
ghost use Rattle.std.specs.Prelude.{◌≡◌};
ghost use Rattle.sinks.specs.Clauses.{clausal, literal};
ghost use Rattle.sinks.specs.Ledgers.{price};

// The variables are 1 to this one.
pub const LAST_VARIABLE: i32 = 99_999_999;

// Whether a number is v or -v for a variable v.
pub fn is_literal(number: i32) -> bool
    ensures { result ≡ literal number }
{
    number != 0 && (-LAST_VARIABLE..=LAST_VARIABLE).contains(&number)
}

// Whether these are literals, and at least one.
pub fn is_clause(numbers: &[i32]) -> bool
    ensures { result ≡ clausal numbers.now }
{
    !numbers.is_empty() && numbers.iter().all(|number| is_literal(*number))
}

// The cost of a clause; what is no clause has none.
pub fn price(numbers: &[i32], cost: usize) -> Option<usize>
    ensures { result ≡ price numbers.now cost }
{
    is_clause(numbers).then_some(cost)
}
