//! What is read off an optimum of the program of a node.
ghost use Rattle.std.specs.Prelude.{◌≡◌, ◌≤◌, ◌<◌, ◌+◌, ◌++◌, ◌∷◌, [], IfOk, length, map, suc, take, unsigned_abs, vec_capacity, vec_len};
ghost use Rattle.form.specs.Primitive.{IsDirection, primitive_of};
ghost use Rattle.form.specs.States.{vector_of};
ghost use Rattle.sign_tree.specs.Read.{placed_of, sign_of};
ghost use Rattle.simplex.specs.Spaces.{IsFound, x_of, y_of};
ghost use Rattle.master_program.specs.Node.{covers_of, signed_of};
ghost use Rattle.master_program.specs.Roles.{placed_from};
ghost use Rattle.master_program.specs.Search.{leaf_of};
ghost use Rattle.master_program.specs.NodeSteps.{counted_node};
ghost use Rattle.pricing_oracle.specs.Filled.{HasMade};
ghost use Rattle.pricing_oracle.specs.Nodes.{MayBeAsked, legs_asked, role_as};
ghost use Rattle.pricing_oracle.specs.Multipliers.{HasRow, multiplier_in, rows_after};

use crate::filling::write_values;
use crate::legs::{Role, SearchQuestion, first_of, legs_of};
use exact_num::{Exact, Wide};
use form::{State, primitive};
use frac::Frac128;
use lists::push_within;
use sign_tree::Multiplier;
use simplex::Space;

/// The primitive state in whose direction the optimum stands.
pub fn state_of<N: Exact>(row: &mut Vec<N>, space: &Space<N>, n: usize) -> Result<State, Wide>
    requires found { IsFound space.now.contents }
    requires few { n ≤ 8 }
    requires direction { IsDirection (take (suc n) (x_of space.now.contents)) }
    requires count { suc n ≤ length (x_of space.now.contents) }
    requires room { n + 1 ≤ vec_capacity row.old }
    ensures state { HasMade vector_of
        (primitive_of (unsigned_abs N.LIMIT) (take (suc n) (x_of space.now.contents))) result }
    ensures count { IfOk result (λ state. state.count ≡ n + 1) }
    ensures capacity { vec_capacity row.old ≤ vec_capacity row.new }
{
    write_values(row, space, n + 1);
    primitive(row.as_slice())
}

/// The rows of the next covering leg and of the next signed one.
#[derive(Clone, Copy)]
pub struct NextRows {
    pub cover: usize,
    pub signed: usize,
}

// The rows after those of a leg with this role.
fn after_leg(rows: NextRows, role: Role) -> NextRows
    requires { (rows.cover ≤ 2048) × (rows.signed ≤ 2048) }
    ensures { result ≡ rows_after (role_as role) rows }
{
    match role {
        Role::Covering => NextRows {
            cover: rows.cover + 1,
            ..rows
        },
        Role::Above | Role::Below => NextRows {
            signed: rows.signed + 1,
            ..rows
        },
        Role::Idle | Role::Free => rows,
    }
}

// The multiplier of a leg with this role: the dual value of its row, and 0 where it has none.
fn multiplier<N: Exact>(space: &Space<N>, rows: NextRows, role: Role) -> N
    requires found { IsFound space.now.contents }
    requires row { HasRow (role_as role) rows (length (y_of space.now.contents)) }
    ensures { N.fraction result ≡ multiplier_in (role_as role) rows (y_of space.now.contents) }
{
    match role {
        Role::Covering => space.y(rows.cover),
        Role::Above | Role::Below => space.y(rows.signed),
        Role::Idle | Role::Free => N::zero(),
    }
}

// Adds a multiplier, where it is above 0.
fn add_multiplier<N: Exact>(multipliers: &mut Vec<Multiplier>, place: usize, by: N)
    requires place { place ≤ 2048 }
    requires room { vec_len multipliers.old + length (placed_from place (N.fraction by ∷ []))
        ≤ vec_capacity multipliers.old }
    ensures added { map placed_of multipliers.new.items
        ≡ map placed_of multipliers.old.items ++ placed_from place (N.fraction by ∷ []) }
    ensures one { vec_len multipliers.new ≤ vec_len multipliers.old + 1 }
    ensures capacity { vec_capacity multipliers.old ≤ vec_capacity multipliers.new }
{
    if by.sign() > 0 {
        let multiplier = Multiplier {
            place: place as u32,
            by: Frac128::of(by),
        };
        push_within(multipliers, multiplier);
    }
}

/// Adds the multipliers of a leaf: of the dual values of the rows after the first those above 0, by
/// rising place.
pub fn add_multipliers<N: Exact>(
    multipliers: &mut Vec<Multiplier>,
    space: &Space<N>,
    asked: SearchQuestion<N>,
    signs: &[i8],
    covers: usize,
)
    requires asked { MayBeAsked asked }
    requires signs { length signs.now ≤ 1024 }
    requires found { IsFound space.now.contents }
    requires covers { covers ≡ length (covers_of
        (counted_node (legs_asked N.fraction asked) (map sign_of signs.now))) }
    requires few { covers ≤ length signs.now }
    requires rows { length (y_of space.now.contents)
        ≡ suc (covers + length (signed_of asked.underlyings
        (counted_node (legs_asked N.fraction asked) (map sign_of signs.now)))) }
    requires room { vec_len multipliers.old + length (leaf_of
        (counted_node (legs_asked N.fraction asked) (map sign_of signs.now))
        (y_of space.now.contents)) ≤ vec_capacity multipliers.old }
    ensures added { map placed_of multipliers.new.items
        ≡ map placed_of multipliers.old.items ++ leaf_of
        (counted_node (legs_asked N.fraction asked.entry) (map sign_of signs.now))
        (y_of space.now.contents) }
    ensures few { vec_len multipliers.new ≤ vec_len multipliers.old + length signs.now }
    ensures capacity { vec_capacity multipliers.old ≤ vec_capacity multipliers.new }
{
    let mut place = 1;
    let mut rows = NextRows {
        cover: 1,
        signed: 1 + covers,
    };
    let mut left = legs_of(asked, signs);
    while let Some((leg, after)) = first_of(left) {
        add_multiplier(multipliers, place, multiplier(space, rows, leg.role));
        rows = after_leg(rows, leg.role);
        place += 1;
        left = after;
    }
}
