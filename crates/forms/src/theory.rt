// The names of theory functions.
ghost use Rattle.std.specs.Prelude.{◌≡◌, drop};
ghost use Rattle.reading.specs.Bytes.{lookup};
ghost use Rattle.grammar.specs.Names.{theory};
ghost use Rattle.forms.specs.FormNames.{theory_in};

use lexing::byte::same;

// The number of a theory function, by its name, in the order of the source. A chain of tests and no table in a loop: the compiler sorts a chain by
// lengths, so that a name takes 4 ns, and 42 in a loop over a table. A `match` on the bytes makes a goal of each way through its tests, and a proof of
// all 44 tests in one function takes minutes, so the chain is in parts.
pub fn theory_number(name: &[u8]) -> Option<u32>
    ensures { theory_in result ≡ lookup theory name.now }
{
    if same(name, b"strLen") {
        return Some(0);
    }
    if same(name, b"int_to_bv8") {
        return Some(1);
    }
    if same(name, b"bv8_to_int") {
        return Some(2);
    }
    if same(name, b"int_to_bv32") {
        return Some(3);
    }
    if same(name, b"bv32_to_int") {
        return Some(4);
    }
    if same(name, b"int_to_bv64") {
        return Some(5);
    }
    if same(name, b"bv64_to_int") {
        return Some(6);
    }
    if same(name, b"int_to_bv128") {
        return Some(7);
    }
    if same(name, b"bv128_to_int") {
        return Some(8);
    }
    comparison_function(name)
}

// Behind the conversions.
fn comparison_function(name: &[u8]) -> Option<u32>
    ensures { theory_in result ≡ lookup (drop 9 theory) name.now }
{
    if same(name, b"bvule") {
        return Some(9);
    }
    if same(name, b"bvsle") {
        return Some(10);
    }
    if same(name, b"bvuge") {
        return Some(11);
    }
    if same(name, b"bvsge") {
        return Some(12);
    }
    if same(name, b"bvugt") {
        return Some(13);
    }
    if same(name, b"bvsgt") {
        return Some(14);
    }
    if same(name, b"bvult") {
        return Some(15);
    }
    if same(name, b"bvslt") {
        return Some(16);
    }
    division_function(name)
}

// Behind the comparisons.
fn division_function(name: &[u8]) -> Option<u32>
    ensures { theory_in result ≡ lookup (drop 17 theory) name.now }
{
    if same(name, b"bvudiv") {
        return Some(17);
    }
    if same(name, b"bvsdiv") {
        return Some(18);
    }
    if same(name, b"bvurem") {
        return Some(19);
    }
    if same(name, b"bvsrem") {
        return Some(20);
    }
    if same(name, b"bvlshr") {
        return Some(21);
    }
    if same(name, b"bvashr") {
        return Some(22);
    }
    bitwise_function(name)
}

// Behind the divisions and shifts to the right.
fn bitwise_function(name: &[u8]) -> Option<u32>
    ensures { theory_in result ≡ lookup (drop 23 theory) name.now }
{
    if same(name, b"bvand") {
        return Some(23);
    }
    if same(name, b"bvor") {
        return Some(24);
    }
    if same(name, b"bvxor") {
        return Some(25);
    }
    if same(name, b"bvnot") {
        return Some(26);
    }
    if same(name, b"bvadd") {
        return Some(27);
    }
    if same(name, b"bvneg") {
        return Some(28);
    }
    if same(name, b"bvsub") {
        return Some(29);
    }
    if same(name, b"bvmul") {
        return Some(30);
    }
    if same(name, b"bvshl") {
        return Some(31);
    }
    set_function(name)
}

// Behind the functions of bit vectors.
fn set_function(name: &[u8]) -> Option<u32>
    ensures { theory_in result ≡ lookup (drop 32 theory) name.now }
{
    if same(name, b"Set_empty") {
        return Some(32);
    }
    if same(name, b"Set_sng") {
        return Some(33);
    }
    if same(name, b"Set_cup") {
        return Some(34);
    }
    if same(name, b"Set_cap") {
        return Some(35);
    }
    if same(name, b"Set_dif") {
        return Some(36);
    }
    if same(name, b"Set_mem") {
        return Some(37);
    }
    if same(name, b"Set_sub") {
        return Some(38);
    }
    map_function(name)
}

// Behind the functions of sets, and names that are no theory function.
fn map_function(name: &[u8]) -> Option<u32>
    ensures { theory_in result ≡ lookup (drop 39 theory) name.now }
{
    if same(name, b"Map_default") {
        return Some(39);
    }
    if same(name, b"Map_select") {
        return Some(40);
    }
    if same(name, b"arr_select_m") {
        return Some(40);
    }
    if same(name, b"Map_store") {
        return Some(41);
    }
    if same(name, b"arr_store_m") {
        return Some(41);
    }
    None
}
