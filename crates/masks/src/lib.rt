// Masks of sites: a byte has a bit for each of at most 7 sites.
// Rests on sets for the bits of a number.
#![tactic(auto)]

ghost use Rattle.std.specs.Prelude.{◌^◌, ◌≡◌, ltb};
ghost use Rattle.sets.specs.Masks.{has_bit};
ghost use Rattle.masks.specs.SiteMasks.{room, only_site, every_site, with_site, with_site_if, next_site, first_sites, relay_to};

// How many sites a mask has room for, as many as a board.
pub const SITES: u8 = 7;

// The mask of site p alone; what is no site gives no site.
pub fn only_site(p: u8) -> u8
    ensures { result ≡ only_site p }
{
    if p < SITES { 1 << p } else { 0 }
}

// The mask of the sites below n.
pub fn every_site(n: u8) -> u8
    ensures { result ≡ every_site n }
{
    if n < SITES { (1 << n) - 1 } else { 127 }
}

// The mask with site p.
pub fn with_site(mask: u8, p: u8) -> u8
    ensures { result ≡ with_site mask p }
{
    mask | only_site(p)
}

// The mask with site p if so.
pub fn with_site_if(mask: u8, p: u8, so: bool) -> u8
    ensures { result ≡ with_site_if mask p so }
{
    if so { with_site(mask, p) } else { mask }
}

// Whether site p is in the mask.
pub fn has_site(mask: u8, p: u8) -> bool
    ensures { result ≡ has_bit mask p }
{
    p < 8 && (mask >> p) % 2 == 1
}

// To whom site p relays DELIVER: to all n but itself, or to none if it is the owner.
pub fn relay_to(n: u8, p: u8, owner: u8) -> u8
    ensures { result ≡ relay_to n p owner }
{
    if p == owner {
        0
    } else {
        every_site(n) & !only_site(p)
    }
}

// The sites of a mask found so far, and site p if the mask has it, up to j of them.
fn next_site(low: u8, mask: u8, p: u8, j: usize) -> u8
    ensures { result ≡ next_site low mask p j }
{
    if j <= low.count_ones() as usize {
        low
    } else {
        with_site_if(low, p, has_site(mask, p))
    }
}

// The first j sites of a mask, in rising number: those that a step cut after j sends reaches.
pub fn first_sites(mask: u8, j: usize) -> u8
    ensures { result ≡ first_sites room mask j }
{
    let mut low = 0;
    for p in 0..SITES {
        low = next_site(low, mask, p, j);
    }
    low
}

// A mask names sites below n only.
pub fn sites_below(n: u8, mask: u8) -> bool
    ensures { result ≡ ltb mask (2 ^ n) }
{
    8 <= n || mask < (1 << n)
}
