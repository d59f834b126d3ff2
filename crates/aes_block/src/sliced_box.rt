// The S-box of all octets in eight words, as a circuit (J. Boyar and R. Peralta, A new combinational logic
// minimization technique with applications to cryptology, 2010). The wires have the names that they have there.

ghost use Rattle.std.specs.Prelude.{◌≡◌, ℕ, ◌<◌};
ghost use Rattle.aes_block.specs.Field.{sub_byte};
ghost use Rattle.aes_block.specs.Slices.{bits_at, at_place, octet_at};
ghost use Rattle.aes_block.specs.Circuit as circuit;

// The S-box of the octet at each place.
#[inline(never)]
pub(crate) fn substitute(words: [u32; 8]) -> [u32; 8]
    ensures { (place : ℕ) → place < 32 → octet_at result place ≡ sub_byte (octet_at words place) }
{
    let sums = linear_sums(words);
    let factors = inner_inverse(inner_values(sums));
    output_sums(products_of(sums, factors))
}

// y0 to y21, of which y0 is bit 0 itself.
#[inline(always)]
fn linear_sums(words: [u32; 8]) -> [u32; 22]
    ensures { (place : ℕ) → place < 32
        → at_place result place ≡ circuit.linear_sums (bits_at words place) }
{
    let y14 = words[4] ^ words[2];
    let y13 = words[7] ^ words[1];
    let y9 = words[7] ^ words[4];
    let y8 = words[7] ^ words[2];
    let t0 = words[6] ^ words[5];
    let y1 = t0 ^ words[0];
    let y4 = y1 ^ words[4];
    let y12 = y13 ^ y14;
    let y2 = y1 ^ words[7];
    let y5 = y1 ^ words[1];
    let y3 = y5 ^ y8;
    let t1 = words[3] ^ y12;
    let y15 = t1 ^ words[2];
    let y20 = t1 ^ words[6];
    let y6 = y15 ^ words[0];
    let y10 = y15 ^ t0;
    let y11 = y20 ^ y9;
    let y7 = words[0] ^ y11;
    let y17 = y10 ^ y11;
    let y19 = y10 ^ y8;
    let y16 = t0 ^ y11;
    let y21 = y13 ^ y16;
    let y18 = words[7] ^ y16;
    [
        words[0], y1, y2, y3, y4, y5, y6, y7, y8, y9, y10, y11, y12, y13, y14, y15, y16, y17, y18,
        y19, y20, y21,
    ]
}

// t21 to t24, an element of the field of 16 elements.
#[inline(always)]
fn inner_values(sums: [u32; 22]) -> [u32; 4]
    ensures { (place : ℕ) → place < 32
        → at_place result place ≡ circuit.inner_values (bits_at sums place) }
{
    let t2 = sums[12] & sums[15];
    let t4 = (sums[3] & sums[6]) ^ t2;
    let t6 = (sums[4] & sums[0]) ^ t2;
    let t7 = sums[13] & sums[16];
    let t9 = (sums[5] & sums[1]) ^ t7;
    let t11 = (sums[2] & sums[7]) ^ t7;
    let t12 = sums[9] & sums[11];
    let t14 = (sums[14] & sums[17]) ^ t12;
    let t16 = (sums[8] & sums[10]) ^ t12;
    [
        (t4 ^ t14) ^ sums[20],
        (t6 ^ t16) ^ sums[19],
        (t9 ^ t14) ^ sums[21],
        (t11 ^ t16) ^ sums[18],
    ]
}

// Its inverse t29, t33, t37 and t40, and the sums t41 to t45.
#[inline(always)]
fn inner_inverse(values: [u32; 4]) -> [u32; 9]
    ensures { (place : ℕ) → place < 32
        → at_place result place ≡ circuit.inner_inverse (bits_at values place) }
{
    let t25 = values[0] ^ values[1];
    let t26 = values[0] & values[2];
    let t27 = values[3] ^ t26;
    let t29 = (t25 & t27) ^ values[1];
    let t30 = values[2] ^ values[3];
    let t31 = values[1] ^ t26;
    let t33 = (t31 & t30) ^ values[3];
    let t34 = values[2] ^ t33;
    let t35 = t27 ^ t33;
    let t36 = values[3] & t35;
    let t37 = t36 ^ t34;
    let t38 = t27 ^ t36;
    let t40 = t25 ^ (t29 & t38);
    let t41 = t40 ^ t37;
    let t42 = t29 ^ t33;
    let t43 = t29 ^ t40;
    let t44 = t33 ^ t37;
    let t45 = t42 ^ t41;
    [t29, t33, t37, t40, t41, t42, t43, t44, t45]
}

// z0 to z17.
#[inline(always)]
fn products_of(sums: [u32; 22], factors: [u32; 9]) -> [u32; 18]
    ensures { (place : ℕ) → place < 32
        → at_place result place ≡ circuit.products_of (bits_at sums place) (bits_at factors place) }
{
    [
        factors[7] & sums[15],
        factors[2] & sums[6],
        factors[1] & sums[0],
        factors[6] & sums[16],
        factors[3] & sums[1],
        factors[0] & sums[7],
        factors[5] & sums[11],
        factors[8] & sums[17],
        factors[4] & sums[10],
        factors[7] & sums[12],
        factors[2] & sums[3],
        factors[1] & sums[4],
        factors[6] & sums[13],
        factors[3] & sums[5],
        factors[0] & sums[2],
        factors[5] & sums[9],
        factors[8] & sums[14],
        factors[4] & sums[8],
    ]
}

// The bits of the answer.
#[inline(always)]
fn output_sums(products: [u32; 18]) -> [u32; 8]
    ensures { (place : ℕ) → place < 32
        → at_place result place ≡ circuit.output_sums (bits_at products place) }
{
    let t46 = products[15] ^ products[16];
    let t47 = products[10] ^ products[11];
    let t48 = products[5] ^ products[13];
    let t49 = products[9] ^ products[10];
    let t50 = products[2] ^ products[12];
    let t51 = products[2] ^ products[5];
    let t52 = products[7] ^ products[8];
    let t53 = products[0] ^ products[3];
    let t54 = products[6] ^ products[7];
    let t55 = products[16] ^ products[17];
    let t56 = products[12] ^ t48;
    let t57 = t50 ^ t53;
    let t58 = products[4] ^ t46;
    let t59 = products[3] ^ t54;
    let t60 = t46 ^ t57;
    let t61 = products[14] ^ t57;
    let t62 = t52 ^ t58;
    let t63 = t49 ^ t58;
    let t64 = products[4] ^ t59;
    let t65 = t61 ^ t62;
    let t66 = products[1] ^ t63;
    let t67 = t64 ^ t65;
    let s3 = t53 ^ t66;
    [
        t48 ^ t60 ^ u32::MAX,
        t56 ^ t62 ^ u32::MAX,
        t47 ^ t65,
        t51 ^ t66,
        s3,
        t55 ^ t67 ^ u32::MAX,
        t64 ^ s3 ^ u32::MAX,
        t59 ^ t63,
    ]
}
