// Whole files with trades and declarations: what is printed for each. The answers were worked out from the rules by
// hand and by a program in another language, never by the book itself.
use super::{PRICES, TWO, accepted, each_is_refused, put, report, run, run_parts, take_entries};
use book::{Book, Opening};
use closing::{Designated, OldestFirst};
use records::lots::{Lot, Slip};
use refusals::Refusal;
use std::alloc::{AllocError, Global};
use std::process::Abort;
use std::test::Fail;

// Accounts 1 and 3 close oldest first, 2 and 4 declare; each product has its own price and base amount.
const FOUR: &[u8] =
    b"O,4,FDFD,150000,150100,160000,160100,190000,190100,100000,100100,170000,110000,10800,10810,12650,6700,9000,13600\nS,60000,600000,65000,650000,80000,800000,40000,400000,70000,45000,64000,640000,75000,42000,60000,50000\n";

// Account 1 closes oldest first, 2 and 3 declare. The prices that convert leave fractions, and the base amounts are
// small.
const ODD: &[u8] =
    b"O,3,FDD,150333,150777,160000,160100,190000,190100,100000,100100,170001,110003,10800,10810,12650,6700,9000,13600\nS,1,2,3,4,5,6,7,8,9,10,11,12,13,14,15,16\n";

// Both methods in one book: F pairs at once, D only by declaration.
const METHOD_CASES: &[(&[u8], &[u8])] = &[
    // a trade between an F and a D account: a lot each, with opposite worth, and the base amount for both
    (
        b"T,1,2,1,2,149000\nM,1\nM,2\n",
        b"OK,1\nM,1,0,0,20000,120000,100000,100000,0\nM,2,0,0,-20000,120000,140000,140000,0\n",
    ),
    // at the latest price nothing is open in yen, but the base amount stands
    (
        b"T,1,2,1,2,150000\nM,1\nM,2\n",
        b"OK,1\nM,1,0,0,0,120000,120000,120000,0\nM,2,0,0,0,120000,120000,120000,0\n",
    ),
    // F is paired at once and loses its lots; D keeps both of its lots until it declares
    (
        b"T,1,2,1,2,149000\nT,2,1,1,2,149500\nM,1\nM,2\nC,2,1,2,1,2\nM,2\nM,1\n",
        b"OK,1\nOK,2\nM,1,0,10000,0,0,-10000,0,0\nM,2,0,0,-10000,120000,130000,130000,0\nOK,3\nM,2,0,-10000,0,0,10000,10000,0\nM,1,0,10000,0,0,-10000,0,0\n",
    ),
    // the seller is paired as the buyer is
    (
        b"T,2,1,1,2,149000\nT,1,2,1,2,148700\nM,1\nM,2\nC,2,1,1,2,2\nM,2\n",
        b"OK,1\nOK,2\nM,1,0,6000,0,0,-6000,0,0\nM,2,0,0,-6000,120000,126000,126000,0\nOK,3\nM,2,0,-6000,0,0,6000,6000,0\n",
    ),
    // a part of it: F keeps what is left of the older lot, D keeps 2 bought and 3 sold
    (
        b"T,1,2,1,3,150100\nT,2,1,1,2,150400\nM,1\nM,2\nC,2,1,2,1,1\nM,2\nC,2,1,2,1,1\nM,2\n",
        b"OK,1\nOK,2\nM,1,0,6000,-1000,60000,55000,55000,0\nM,2,0,0,-5000,180000,185000,185000,0\nOK,3\nM,2,0,-3000,-2000,120000,125000,125000,0\nOK,4\nM,2,0,-6000,1000,60000,65000,65000,0\n",
    ),
    // F turns from bought to sold in one trade
    (
        b"T,1,2,1,3,150100\nT,2,1,1,5,150400\nM,1\nT,1,2,1,2,150000\nM,1\n",
        b"OK,1\nOK,2\nM,1,0,9000,8000,120000,103000,103000,0\nOK,3\nM,1,0,17000,0,0,-17000,0,0\n",
    ),
    // a trade's price never becomes the latest
    (
        b"T,1,2,1,1,1\nM,1\nT,1,2,1,1,999999\nM,1\nM,2\n",
        b"OK,1\nM,1,0,0,1499990,60000,-1439990,0,0\nOK,2\nM,1,0,0,-7000000,120000,7120000,7120000,0\nM,2,0,0,7000000,120000,-6880000,0,0\n",
    ),
    // an F account may not declare, even where it holds the lots of that trade
    (
        b"T,1,2,1,1,150000\nC,1,1,1,1,1\nM,1\n",
        b"OK,1\nNO,4,R,10,0\nM,1,0,0,0,60000,60000,60000,0\n",
    ),
];

#[test]
fn both_methods(rt: HostRuntime) -> Result<(), Fail> {
    run(&rt, TWO, METHOD_CASES)
}

// Two accounts of each method.
const FOUR_CASES: &[(&[u8], &[u8])] = &[
    // F with F: both are paired, at once
    (
        b"T,1,3,1,2,150000\nT,3,1,1,2,150300\nM,1\nM,3\n",
        b"OK,1\nOK,2\nM,1,0,6000,0,0,-6000,0,0\nM,3,0,-6000,0,0,6000,6000,0\n",
    ),
    // D with D: neither is, until each declares
    (
        b"T,2,4,1,2,150000\nT,4,2,1,2,150300\nM,2\nM,4\nC,2,1,1,2,2\nM,2\nM,4\nC,4,1,2,1,2\nM,4\n",
        b"OK,1\nOK,2\nM,2,0,0,6000,120000,114000,114000,0\nM,4,0,0,-6000,120000,126000,126000,0\nOK,3\nM,2,0,6000,0,0,-6000,0,0\nM,4,0,0,-6000,120000,126000,126000,0\nOK,4\nM,4,0,-6000,0,0,6000,6000,0\n",
    ),
    // F buys from F and sells to D
    (
        b"T,1,3,5,4,189000\nT,4,1,5,4,189700\nM,1\nM,3\nM,4\n",
        b"OK,1\nOK,2\nM,1,0,28000,0,0,-28000,0,0\nM,3,0,0,-40000,320000,360000,360000,0\nM,4,0,0,12000,320000,308000,308000,0\n",
    ),
    // the lots of other accounts are never paired with one's own
    (
        b"T,1,2,1,1,150000\nT,2,3,1,1,150000\nM,1\nM,2\nM,3\nT,3,1,1,1,150010\nM,1\nM,3\n",
        b"OK,1\nOK,2\nM,1,0,0,0,60000,60000,60000,0\nM,2,0,0,0,60000,60000,60000,0\nM,3,0,0,0,60000,60000,60000,0\nOK,3\nM,1,0,100,0,0,-100,0,0\nM,3,0,-100,0,0,100,100,0\n",
    ),
    // nor those of other products, a Large one of the same currencies too
    (
        b"T,1,2,1,1,150000\nT,2,1,2,1,150000\nT,2,1,3,1,150000\nM,1\nT,2,1,1,1,150050\nM,1\n",
        b"OK,1\nOK,2\nOK,3\nM,1,0,0,-110000,725000,835000,835000,0\nOK,4\nM,1,0,500,-110000,665000,774500,774500,0\n",
    ),
];

#[test]
fn two_of_each(rt: HostRuntime) -> Result<(), Fail> {
    run(&rt, FOUR, FOUR_CASES)
}

// What a step is worth in each product, open and paired, gains and losses.
const MONEY_CASES: &[(&[u8], &[u8])] = &[
    // 10 yen
    (
        b"T,1,2,1,1,149999\nT,1,2,3,1,160001\nT,1,2,5,2,189990\nT,1,2,7,1,100003\nT,1,2,9,1,169993\nT,1,2,10,3,110001\nM,1\nM,2\n",
        b"OK,1\nOK,2\nOK,3\nOK,4\nOK,5\nOK,6\nM,1,0,0,210,530000,529790,529790,0\nM,2,0,0,-210,530000,530210,530210,0\n",
    ),
    // 100 yen
    (
        b"T,1,2,2,1,150099\nT,1,2,4,1,160103\nT,1,2,6,1,190095\nT,1,2,8,2,100101\nM,1\nM,2\n",
        b"OK,1\nOK,2\nOK,3\nOK,4\nM,1,0,0,100,2850000,2849900,2849900,0\nM,2,0,0,-100,2850000,2850100,2850100,0\n",
    ),
    // 100 hundredths by product 1
    (
        b"T,1,2,11,1,10799\nM,1\nM,2\nT,1,2,13,1,12651\nM,1\nM,2\nT,1,2,14,3,6690\nM,1\nM,2\n",
        b"OK,1\nM,1,0,0,150,64000,63850,63850,0\nM,2,0,0,-150,64000,64150,64150,0\nOK,2\nM,1,0,0,0,139000,139000,139000,0\nM,2,0,0,0,139000,139000,139000,0\nOK,3\nM,1,0,0,4500,265000,260500,260500,0\nM,2,0,0,-4500,265000,269500,269500,0\n",
    ),
    // 1,000 hundredths by product 2
    (
        b"T,1,2,12,1,10809\nM,1\nM,2\nT,1,2,12,2,10811\nM,1\nM,2\n",
        b"OK,1\nM,1,0,0,1501,640000,638499,638499,0\nM,2,0,0,-1501,640000,641501,641501,0\nOK,2\nM,1,0,0,-1501,1920000,1921501,1921501,0\nM,2,0,0,1501,1920000,1918499,1918499,0\n",
    ),
    // 100 hundredths by products 9 and 10
    (
        b"T,1,2,15,1,8999\nM,1\nM,2\nT,1,2,16,1,13605\nM,1\nM,2\n",
        b"OK,1\nM,1,0,0,170,60000,59830,59830,0\nM,2,0,0,-170,60000,60170,60170,0\nOK,2\nM,1,0,0,-380,110000,110380,110380,0\nM,2,0,0,380,110000,109620,109620,0\n",
    ),
    // the same when paired
    (
        b"T,1,2,1,1,150000\nT,2,1,1,1,150001\nT,1,2,2,1,150000\nT,2,1,2,1,150001\nM,1\nT,1,2,11,1,10800\nT,2,1,11,1,10801\nM,1\nT,1,2,12,1,10800\nT,2,1,12,1,10801\nM,1\nT,1,2,15,1,9000\nT,2,1,15,1,9001\nM,1\nT,1,2,16,1,13600\nT,2,1,16,1,13601\nM,1\n",
        b"OK,1\nOK,2\nOK,3\nOK,4\nM,1,0,110,0,0,-110,0,0\nOK,5\nOK,6\nM,1,0,260,0,0,-260,0,0\nOK,7\nOK,8\nM,1,0,1761,0,0,-1761,0,0\nOK,9\nOK,10\nM,1,0,1931,0,0,-1931,0,0\nOK,11\nOK,12\nM,1,0,2041,0,0,-2041,0,0\n",
    ),
    // and lost
    (
        b"T,1,2,1,1,150000\nT,2,1,1,1,149999\nT,1,2,2,1,150000\nT,2,1,2,1,149999\nM,1\nT,1,2,11,1,10800\nT,2,1,11,1,10799\nM,1\nT,1,2,12,1,10800\nT,2,1,12,1,10799\nM,1\nT,1,2,15,1,9000\nT,2,1,15,1,8999\nM,1\nT,1,2,16,1,13600\nT,2,1,16,1,13599\nM,1\n",
        b"OK,1\nOK,2\nOK,3\nOK,4\nM,1,0,-110,0,0,110,110,0\nOK,5\nOK,6\nM,1,0,-260,0,0,260,260,0\nOK,7\nOK,8\nM,1,0,-1761,0,0,1761,1761,0\nOK,9\nOK,10\nM,1,0,-1931,0,0,1931,1931,0\nOK,11\nOK,12\nM,1,0,-2041,0,0,2041,2041,0\n",
    ),
    // the largest worth of one trade, each way
    (
        b"T,1,2,12,500,1\nM,1\nM,2\nT,4,3,12,500,999999\nM,3\nM,4\nT,2,1,12,500,999999\nM,1\nC,2,12,3,1,500\nM,2\n",
        b"OK,1\nM,1,0,0,8112154500,320000000,-7792154500,0,0\nM,2,0,0,-8112154500,320000000,8432154500,8432154500,0\nOK,2\nM,3,0,0,742386344500,320000000,-742066344500,0,0\nM,4,0,0,-742386344500,320000000,742706344500,742706344500,0\nOK,3\nM,1,0,750498499000,0,0,-750498499000,0,0\nOK,4\nM,2,0,-750498499000,0,0,750498499000,750498499000,0\n",
    ),
];

#[test]
fn step_worths(rt: HostRuntime) -> Result<(), Fail> {
    run(&rt, FOUR, MONEY_CASES)
}

// What conversion leaves out.
const FRACTION_CASES: &[(&[u8], &[u8])] = &[
    // 100 hundredths are 150.333 yen; lost, they are 151
    (
        b"T,1,2,11,1,10799\nM,1\nM,2\n",
        b"OK,1\nM,1,0,0,150,11,-139,0,0\nM,2,0,0,-151,11,162,162,0\n",
    ),
    // 5,300 hundredths are 7,967.649 yen
    (
        b"T,1,2,11,53,10799\nM,1\nM,2\n",
        b"OK,1\nM,1,0,0,7967,583,-7384,0,0\nM,2,0,0,-7968,583,8551,8551,0\n",
    ),
    // open, each product is converted on its own: 150 and 150; lost, 151 and 151
    (
        b"T,1,2,11,1,10799\nT,1,2,13,1,12649\nM,1\nM,2\n",
        b"OK,1\nOK,2\nM,1,0,0,300,24,-276,0,0\nM,2,0,0,-302,24,326,326,0\n",
    ),
    // a gain in one and a loss in the other: 150 less 151 for both
    (
        b"T,1,2,11,1,10799\nT,2,1,13,1,12649\nM,1\nM,2\n",
        b"OK,1\nOK,2\nM,1,0,0,-1,24,25,25,0\nM,2,0,0,-1,24,25,25,0\n",
    ),
    // both sides of a product are joined before conversion
    (
        b"T,3,2,11,1,10799\nT,2,3,11,1,10799\nM,2\nM,3\nT,2,3,11,3,10799\nM,2\nM,3\n",
        b"OK,1\nOK,2\nM,2,0,0,0,11,11,11,0\nM,3,0,0,0,11,11,11,0\nOK,3\nM,2,0,0,450,44,-406,0,0\nM,3,0,0,-451,44,495,495,0\n",
    ),
    // the slips of a product are summed before conversion: 4 of 100 are 601 yen, and 602 lost
    (
        b"T,1,2,11,1,10800\nT,2,1,11,1,10801\nT,1,2,11,1,10800\nT,2,1,11,1,10801\nT,1,2,11,1,10800\nT,2,1,11,1,10801\nT,1,2,11,1,10800\nT,2,1,11,1,10801\nM,1\nC,2,11,2,1,1\nC,2,11,4,3,1\nC,2,11,6,5,1\nM,2\nC,2,11,8,7,1\nM,2\n",
        b"OK,1\nOK,2\nOK,3\nOK,4\nOK,5\nOK,6\nOK,7\nOK,8\nM,1,0,601,0,0,-601,0,0\nOK,9\nOK,10\nOK,11\nM,2,0,-451,-151,11,613,613,0\nOK,12\nM,2,0,-602,0,0,602,602,0\n",
    ),
    // those of two products are not: 150 and 150
    (
        b"T,1,2,11,1,10800\nT,2,1,11,1,10801\nT,1,2,14,1,6700\nT,2,1,14,1,6701\nM,1\nC,2,11,2,1,1\nC,2,14,4,3,1\nM,2\n",
        b"OK,1\nOK,2\nOK,3\nOK,4\nM,1,0,300,0,0,-300,0,0\nOK,5\nOK,6\nM,2,0,-302,0,0,302,302,0\n",
    ),
    // paired and open are converted apart: 150 and 150 for one, 151 and 151 lost for the other
    (
        b"T,1,2,11,1,10800\nT,2,1,11,1,10801\nC,2,11,2,1,1\nT,1,2,11,1,10799\nM,1\nM,2\n",
        b"OK,1\nOK,2\nOK,3\nOK,4\nM,1,0,150,150,11,-289,0,0\nM,2,0,-151,-151,11,313,313,0\n",
    ),
    // a gain and a loss in one product's slips: what is lost and won is nothing
    (
        b"T,1,2,11,1,10800\nT,2,1,11,1,10801\nT,1,2,11,1,10801\nT,2,1,11,1,10800\nM,1\n",
        b"OK,1\nOK,2\nOK,3\nOK,4\nM,1,0,0,0,0,0,0,0\n",
    ),
    // other prices that convert
    (
        b"T,1,2,12,1,10809\nT,1,2,15,1,8999\nT,1,2,16,1,13599\nM,1\nM,2\nT,2,1,12,1,10810\nT,2,1,15,1,9001\nT,2,1,16,1,13602\nM,1\nM,2\n",
        b"OK,1\nOK,2\nOK,3\nM,1,0,0,1787,43,-1744,0,0\nM,2,0,0,-1790,43,1833,1833,0\nOK,4\nOK,5\nOK,6\nM,1,0,2177,0,0,-2177,0,0\nM,2,0,0,-2180,43,2223,2223,0\n",
    ),
];

#[test]
fn fractions(rt: HostRuntime) -> Result<(), Fail> {
    run(&rt, ODD, FRACTION_CASES)
}

// The base amount goes by the larger side, product by product.
const BASE_CASES: &[(&[u8], &[u8])] = &[
    // bought 3, sold 2, then sold 5: 3 times, 3 times, 5 times the amount
    (
        b"T,2,4,1,3,150000\nM,2\nT,4,2,1,2,150000\nM,2\nT,4,2,1,3,150000\nM,2\nM,4\n",
        b"OK,1\nM,2,0,0,0,180000,180000,180000,0\nOK,2\nM,2,0,0,0,180000,180000,180000,0\nOK,3\nM,2,0,0,0,300000,300000,300000,0\nM,4,0,0,0,300000,300000,300000,0\n",
    ),
    // two products are added, whichever side they are on
    (
        b"T,2,4,1,3,150000\nT,4,2,2,1,150100\nM,2\nM,4\n",
        b"OK,1\nOK,2\nM,2,0,0,0,780000,780000,780000,0\nM,4,0,0,0,780000,780000,780000,0\n",
    ),
    // every product has its own amount
    (
        b"T,1,2,1,1,150000\nT,1,2,2,1,150100\nT,1,2,3,1,160000\nT,1,2,4,1,160100\nT,1,2,5,1,190000\nT,1,2,6,1,190100\nT,1,2,7,1,100000\nT,1,2,8,1,100100\nM,1\nT,1,2,9,1,170000\nT,1,2,10,1,110000\nT,1,2,11,1,10800\nT,1,2,12,1,10810\nT,1,2,13,1,12650\nT,1,2,14,1,6700\nT,1,2,15,1,9000\nT,1,2,16,1,13600\nM,1\nM,2\nM,3\n",
        b"OK,1\nOK,2\nOK,3\nOK,4\nOK,5\nOK,6\nOK,7\nOK,8\nM,1,0,0,0,2695000,2695000,2695000,0\nOK,9\nOK,10\nOK,11\nOK,12\nOK,13\nOK,14\nOK,15\nOK,16\nM,1,0,0,0,3741000,3741000,3741000,0\nM,2,0,0,0,3741000,3741000,3741000,0\nM,3,0,0,0,0,0,0,0\n",
    ),
    // a declared pair takes from both sides
    (
        b"T,2,4,1,5,150000\nT,4,2,1,3,150000\nM,2\nC,2,1,1,2,2\nM,2\nM,4\nC,4,1,2,1,3\nM,4\n",
        b"OK,1\nOK,2\nM,2,0,0,0,300000,300000,300000,0\nOK,3\nM,2,0,0,0,180000,180000,180000,0\nM,4,0,0,0,300000,300000,300000,0\nOK,4\nM,4,0,0,0,120000,120000,120000,0\n",
    ),
    // paired at once, nothing is left to ask for
    (
        b"D,1,1000000\nT,1,2,1,5,150000\nM,1\nT,2,1,1,5,150000\nM,1\n",
        b"OK,1\nOK,2\nM,1,1000000,0,0,300000,300000,0,700000\nOK,3\nM,1,1000000,0,0,0,0,0,1000000\n",
    ),
    // a deposit below, at and above what is required
    (
        b"T,1,3,1,1,149000\nM,1\nD,1,49999\nM,1\nD,1,1\nM,1\nD,1,1\nM,1\n",
        b"OK,1\nM,1,0,0,10000,60000,50000,50000,0\nOK,2\nM,1,49999,0,10000,60000,50000,1,0\nOK,3\nM,1,50000,0,10000,60000,50000,0,0\nOK,4\nM,1,50001,0,10000,60000,50000,0,0\n",
    ),
];

#[test]
fn base_amounts(rt: HostRuntime) -> Result<(), Fail> {
    run(&rt, FOUR, BASE_CASES)
}

// A day up to its close-out by declaration, bare and with reports.
const PRINTED_CASES: &[(&[u8], &[u8])] = &[
    (
        b"D,2,500000\nT,2,1,1,3,150000\nT,1,2,1,1,150400\nC,2,1,2,3,1\n",
        b"OK,1\nOK,2\nOK,3\nOK,4\n",
    ),
    (
        b"M,2\nD,2,500000\nM,2\nT,2,1,1,3,150000\nM,1\nM,2\nT,1,2,1,1,150400\nM,1\nM,2\nC,2,1,2,3,1\nM,1\nM,2\nW,2,384001\nW,2,384000\nM,2\n",
        b"M,2,0,0,0,0,0,0,0\nOK,1\nM,2,500000,0,0,0,0,0,500000\nOK,2\nM,1,0,0,0,180000,180000,180000,0\nM,2,500000,0,0,180000,180000,0,320000\nOK,3\nM,1,0,-4000,0,120000,124000,124000,0\nM,2,500000,0,4000,180000,176000,0,320000\nOK,4\nM,1,0,-4000,0,120000,124000,124000,0\nM,2,500000,4000,0,120000,116000,0,384000\nNO,15,B,14,384000\nOK,5\nM,2,116000,4000,0,120000,116000,0,0\n",
    ),
];

#[test]
fn a_day(rt: HostRuntime) -> Result<(), Fail> {
    run(&rt, TWO, PRINTED_CASES)
}

// Oldest first, seen through reports: other lots would give another settled difference.
const OLDEST_CASES: &[(&[u8], &[u8])] = &[
    // bought 2, bought 3, sold 4: 2 of the first and 2 of the second are paired, bought 1 of the second is left
    (
        b"T,1,2,1,2,150010\nT,1,2,1,3,150020\nT,2,1,1,4,150100\nM,1\nT,2,1,1,1,150020\nM,1\n",
        b"OK,1\nOK,2\nOK,3\nM,1,0,3400,-200,60000,56800,56800,0\nOK,4\nM,1,0,3400,0,0,-3400,0,0\n",
    ),
    // the same with sides exchanged
    (
        b"T,2,1,1,2,150010\nT,2,1,1,3,150020\nT,1,2,1,4,150100\nM,1\nT,1,2,1,1,150020\nM,1\n",
        b"OK,1\nOK,2\nOK,3\nM,1,0,-3400,200,60000,63200,63200,0\nOK,4\nM,1,0,-3400,0,0,3400,3400,0\n",
    ),
    // sold 7 pairs all of them and leaves sold 2
    (
        b"T,1,2,1,2,150010\nT,1,2,1,3,150020\nT,2,1,1,7,150100\nM,1\nT,1,2,1,2,150100\nM,1\n",
        b"OK,1\nOK,2\nOK,3\nM,1,0,4200,2000,120000,113800,113800,0\nOK,4\nM,1,0,4200,0,0,-4200,0,0\n",
    ),
    // one by one
    (
        b"T,1,2,1,2,150001\nT,1,2,1,2,150010\nT,1,2,1,2,150100\nT,2,1,1,1,150000\nM,1\nT,2,1,1,1,150000\nM,1\nT,2,1,1,1,150000\nM,1\nT,2,1,1,1,150000\nM,1\nT,2,1,1,1,150000\nM,1\nT,2,1,1,1,150000\nM,1\nT,2,1,1,1,150000\nM,1\n",
        b"OK,1\nOK,2\nOK,3\nOK,4\nM,1,0,-10,-2210,300000,302220,302220,0\nOK,5\nM,1,0,-20,-2200,240000,242220,242220,0\nOK,6\nM,1,0,-120,-2100,180000,182220,182220,0\nOK,7\nM,1,0,-220,-2000,120000,122220,122220,0\nOK,8\nM,1,0,-1220,-1000,60000,62220,62220,0\nOK,9\nM,1,0,-2220,0,0,2220,2220,0\nOK,10\nM,1,0,-2220,0,60000,62220,62220,0\n",
    ),
    // what is left of a lot stays the oldest
    (
        b"T,1,2,1,5,150001\nT,2,1,1,3,150000\nM,1\nT,1,2,1,5,150100\nM,1\nT,2,1,1,3,150000\nM,1\n",
        b"OK,1\nOK,2\nM,1,0,-30,-20,120000,120050,120050,0\nOK,3\nM,1,0,-30,-5020,420000,425050,425050,0\nOK,4\nM,1,0,-1050,-4000,240000,245050,245050,0\n",
    ),
    // lots of another product lie between
    (
        b"T,1,2,1,1,150001\nT,1,2,2,9,100001\nT,1,2,1,1,150010\nT,1,2,3,9,100001\nT,2,1,1,1,150000\nM,1\nT,2,1,2,10,100000\nM,1\nT,2,1,1,1,150000\nM,1\n",
        b"OK,1\nOK,2\nOK,3\nOK,4\nOK,5\nM,1,0,-10,-1090,60000,61100,61100,0\nOK,6\nM,1,0,-910,-190,60000,61100,61100,0\nOK,7\nM,1,0,-1010,-90,0,1100,1100,0\n",
    ),
    // exactly one lot, then the next
    (
        b"T,1,2,1,4,150001\nT,1,2,1,4,150010\nT,2,1,1,4,150000\nM,1\nT,2,1,1,4,150000\nM,1\n",
        b"OK,1\nOK,2\nOK,3\nM,1,0,-40,-400,240000,240440,240440,0\nOK,4\nM,1,0,-440,0,0,440,440,0\n",
    ),
];

#[test]
fn oldest_first(rt: HostRuntime) -> Result<(), Fail> {
    run(&rt, TWO, OLDEST_CASES)
}

// Declared pairs: the lots are named by entry number, and what remains may be paired again.
const DECLARED_CASES: &[(&[u8], &[u8])] = &[
    // twice from the same lots until the remainder is gone, and no more
    (
        b"T,2,1,1,5,150000\nT,1,2,1,3,150400\nM,2\nC,2,1,1,2,1\nM,2\nC,2,1,1,2,2\nM,2\nC,2,1,1,2,1\nM,2\n",
        b"OK,1\nOK,2\nM,2,0,0,12000,300000,288000,288000,0\nOK,3\nM,2,0,4000,8000,240000,228000,228000,0\nOK,4\nM,2,0,12000,0,120000,108000,108000,0\nNO,10,B,11,2\nM,2,0,12000,0,120000,108000,108000,0\n",
    ),
    // both lots leave at once
    (
        b"T,2,1,1,2,150000\nT,1,2,1,2,150400\nC,2,1,1,2,2\nM,2\nC,2,1,1,2,1\n",
        b"OK,1\nOK,2\nOK,3\nM,2,0,8000,0,0,-8000,0,0\nNO,7,B,11,1\n",
    ),
    // the newer of two bought lots, then the older
    (
        b"T,2,1,1,2,150000\nT,2,1,1,2,150100\nT,1,2,1,3,150400\nC,2,1,2,3,1\nM,2\nC,2,1,1,3,2\nM,2\nC,2,1,2,3,1\n",
        b"OK,1\nOK,2\nOK,3\nOK,4\nM,2,0,3000,7000,180000,170000,170000,0\nOK,5\nM,2,0,11000,-1000,60000,50000,50000,0\nNO,10,B,11,2\n",
    ),
    // one bought lot with two sold lots
    (
        b"T,2,1,1,4,150000\nT,1,2,1,1,150100\nT,1,2,1,3,150010\nC,2,1,1,3,3\nM,2\nC,2,1,1,2,1\nM,2\n",
        b"OK,1\nOK,2\nOK,3\nOK,4\nM,2,0,300,1000,60000,58700,58700,0\nOK,5\nM,2,0,1300,0,0,-1300,0,0\n",
    ),
    // a lot that leaves makes room, and the others are still found by their numbers
    (
        b"T,2,1,1,1,150000\nT,2,1,1,1,150100\nT,1,2,1,1,150200\nT,2,1,1,1,150300\nC,2,1,1,3,1\nM,2\nT,1,2,1,2,150400\nC,2,1,2,6,1\nC,2,1,4,6,1\nM,2\nT,2,1,1,1,149000\nC,2,1,9,6,1\nC,2,1,1,9,1\nM,2\n",
        b"OK,1\nOK,2\nOK,3\nOK,4\nOK,5\nM,2,0,2000,-4000,120000,122000,122000,0\nOK,6\nOK,7\nOK,8\nM,2,0,6000,0,0,-6000,0,0\nOK,9\nNO,14,B,11,2\nNO,15,B,11,1\nM,2,0,6000,10000,60000,44000,44000,0\n",
    ),
    // a sale before a purchase
    (
        b"T,1,2,1,2,150400\nT,2,1,1,2,150000\nC,2,1,2,1,2\nM,2\n",
        b"OK,1\nOK,2\nOK,3\nM,2,0,8000,0,0,-8000,0,0\n",
    ),
    // lots of one number in two accounts: each account has its own
    (
        b"T,2,1,1,1,150000\nT,1,2,1,1,150100\nC,2,1,1,2,1\nM,1\nM,2\n",
        b"OK,1\nOK,2\nOK,3\nM,1,0,-1000,0,0,1000,1000,0\nM,2,0,1000,0,0,-1000,0,0\n",
    ),
    // more slips than one of a pair of lots
    (
        b"T,2,1,2,500,100000\nT,1,2,2,500,100001\nC,2,2,1,2,1\nC,2,2,1,2,1\nC,2,2,1,2,1\nM,2\nC,2,2,1,2,497\nM,2\nC,2,2,1,2,1\n",
        b"OK,1\nOK,2\nOK,3\nOK,4\nOK,5\nM,2,0,300,49700,0,-50000,0,0\nOK,6\nM,2,0,50000,0,0,-50000,0,0\nNO,11,B,11,1\n",
    ),
];

#[test]
fn declared_pairs(rt: HostRuntime) -> Result<(), Fail> {
    run(&rt, TWO, DECLARED_CASES)
}

// At most 500 open contracts a side, an account and a product: 7 and the account.
const LIMIT_CASES: &[(&[u8], &[u8])] = &[
    // 500 at once
    (
        b"T,2,4,1,500,150000\nM,2\nM,4\n",
        b"OK,1\nM,2,0,0,0,30000000,30000000,30000000,0\nM,4,0,0,0,30000000,30000000,30000000,0\n",
    ),
    // one more, for the buyer
    (
        b"T,2,4,1,500,150000\nT,2,1,1,1,150000\nM,2\n",
        b"OK,1\nNO,4,B,7,2\nM,2,0,0,0,30000000,30000000,30000000,0\n",
    ),
    // one more, for the seller
    (
        b"T,2,4,1,500,150000\nT,1,4,1,1,150000\nM,4\n",
        b"OK,1\nNO,4,B,7,4\nM,4,0,0,0,30000000,30000000,30000000,0\n",
    ),
    // both would pass: the buyer is told
    (
        b"T,2,4,1,500,150000\nT,2,4,1,1,150000\nT,2,4,1,500,150000\n",
        b"OK,1\nNO,4,B,7,2\nNO,5,B,7,2\n",
    ),
    // in parts: 499 and 1; 300 and 200, and not 201
    (
        b"T,2,4,1,499,150000\nT,2,4,1,2,150000\nT,2,4,1,1,150000\nT,2,4,1,1,150000\nT,2,4,3,300,150000\nT,2,1,3,201,150000\nT,3,4,3,201,150000\nT,2,4,3,200,150000\nM,2\n",
        b"OK,1\nNO,4,B,7,2\nOK,2\nNO,6,B,7,2\nOK,3\nNO,8,B,7,2\nNO,9,B,7,4\nOK,4\nM,2,0,0,50000000,62500000,12500000,12500000,0\n",
    ),
    // one contract, then 500
    (
        b"T,2,4,1,1,150000\nT,2,4,1,500,150000\nT,2,4,1,499,150000\n",
        b"OK,1\nNO,4,B,7,2\nOK,2\n",
    ),
    // both sides are counted apart
    (
        b"T,2,4,1,500,150000\nT,4,2,1,500,150000\nM,2\nM,4\nT,2,1,1,1,150000\nT,1,2,1,1,150000\nT,4,1,1,1,150000\nT,1,4,1,1,150000\n",
        b"OK,1\nOK,2\nM,2,0,0,0,30000000,30000000,30000000,0\nM,4,0,0,0,30000000,30000000,30000000,0\nNO,7,B,7,2\nNO,8,B,7,2\nNO,9,B,7,4\nNO,10,B,7,4\n",
    ),
    // each product is counted apart
    (
        b"T,2,4,1,500,150000\nT,2,4,2,500,150000\nT,2,4,16,500,13600\nM,2\nT,2,4,2,1,1\nT,2,4,16,1,1\nT,2,4,15,1,9000\n",
        b"OK,1\nOK,2\nOK,3\nM,2,0,0,5000000,355000000,350000000,350000000,0\nNO,7,B,7,2\nNO,8,B,7,2\nOK,4\n",
    ),
    // each account is counted apart
    (
        b"T,2,4,1,500,150000\nT,1,3,1,500,150000\nM,1\nM,3\nT,1,4,1,1,150000\nT,2,3,1,1,150000\nT,3,2,1,1,150000\n",
        b"OK,1\nOK,2\nM,1,0,0,0,30000000,30000000,30000000,0\nM,3,0,0,0,30000000,30000000,30000000,0\nNO,7,B,7,1\nNO,8,B,7,2\nOK,3\n",
    ),
    // what is paired is open no longer
    (
        b"T,2,4,1,500,150000\nT,4,2,1,10,150000\nC,2,1,1,2,10\nT,2,1,1,11,150000\nT,2,1,1,10,150000\nT,2,1,1,1,150000\n",
        b"OK,1\nOK,2\nOK,3\nNO,6,B,7,2\nOK,4\nNO,8,B,7,2\n",
    ),
    // F sells 500 of 500, and may buy 500 again
    (
        b"T,1,2,1,500,150000\nT,1,4,1,1,150000\nT,4,1,1,500,150001\nM,1\nT,1,3,1,500,150000\nM,1\n",
        b"OK,1\nNO,4,B,7,1\nOK,2\nM,1,0,5000,0,0,-5000,0,0\nOK,3\nM,1,0,5000,0,30000000,29995000,29995000,0\n",
    ),
    // F with 500 sold buys 500: nothing bought was open before
    (
        b"T,2,1,1,500,150000\nT,1,4,1,500,149999\nM,1\nT,1,4,1,500,150000\n",
        b"OK,1\nOK,2\nM,1,0,5000,0,0,-5000,0,0\nNO,6,B,7,4\n",
    ),
    // F with 300 bought sells 500: 200 are left, and 301 more pass 500
    (
        b"T,1,2,1,300,150000\nT,2,1,1,500,150000\nM,1\nT,4,1,1,301,150000\nT,4,1,1,300,150000\n",
        b"OK,1\nOK,2\nM,1,0,0,0,12000000,12000000,12000000,0\nNO,6,B,7,1\nOK,3\n",
    ),
    // a refused trade leaves both accounts as they were
    (
        b"T,2,4,1,500,150000\nT,2,1,1,1,150000\nT,1,4,1,1,150000\nM,1\nM,2\nM,4\nT,1,3,1,1,150000\n",
        b"OK,1\nNO,4,B,7,2\nNO,5,B,7,4\nM,1,0,0,0,0,0,0,0\nM,2,0,0,0,30000000,30000000,30000000,0\nM,4,0,0,0,30000000,30000000,30000000,0\nOK,2\n",
    ),
];

#[test]
fn limit_of_500(rt: HostRuntime) -> Result<(), Fail> {
    run(&rt, FOUR, LIMIT_CASES)
}

// Each cause that refuses a trade, alone.
const TRADE_REFUSALS: &[(&[u8], &[u8])] = &[
    // 2: the buyer
    (
        b"T,0,2,1,1,150000\nT,3,2,1,1,150000\nT,9999999999,2,1,1,150000\nT,4294967297,2,1,1,150000\nT,257,2,1,1,150000\nM,2\n",
        b"NO,3,B,2,0\nNO,4,B,2,3\nNO,5,B,2,9999999999\nNO,6,B,2,4294967297\nNO,7,B,2,257\nM,2,0,0,0,0,0,0,0\n",
    ),
    // 2: the seller
    (
        b"T,1,0,1,1,150000\nT,1,3,1,1,150000\nT,1,9999999999,1,1,150000\nT,1,4294967298,1,1,150000\nT,1,258,1,1,150000\nM,1\n",
        b"NO,3,B,2,0\nNO,4,B,2,3\nNO,5,B,2,9999999999\nNO,6,B,2,4294967298\nNO,7,B,2,258\nM,1,0,0,0,0,0,0,0\n",
    ),
    // 3
    (
        b"T,1,2,0,1,150000\nT,1,2,17,1,150000\nT,1,2,9999999999,1,150000\nT,1,2,4294967297,1,150000\nT,1,2,257,1,150000\nM,1\n",
        b"NO,3,B,3,0\nNO,4,B,3,17\nNO,5,B,3,9999999999\nNO,6,B,3,4294967297\nNO,7,B,3,257\nM,1,0,0,0,0,0,0,0\n",
    ),
    // 4, low and high
    (
        b"T,1,2,1,0,150000\nT,1,2,1,501,150000\nT,1,2,1,9999999999,150000\nT,1,2,1,4294967297,150000\nM,1\n",
        b"NO,3,B,4,0\nNO,4,B,4,0\nNO,5,B,4,0\nNO,6,B,4,0\nM,1,0,0,0,0,0,0,0\n",
    ),
    // 5, low and high
    (
        b"T,1,2,1,1,0\nT,1,2,1,1,1000000\nT,1,2,1,1,9999999999\nT,1,2,1,1,4294967297\nM,1\n",
        b"NO,3,B,5,0\nNO,4,B,5,0\nNO,5,B,5,0\nNO,6,B,5,0\nM,1,0,0,0,0,0,0,0\n",
    ),
    // 6
    (
        b"T,1,1,1,1,150000\nT,2,2,1,1,150000\nM,1\nM,2\n",
        b"NO,3,B,6,0\nNO,4,B,6,0\nM,1,0,0,0,0,0,0,0\nM,2,0,0,0,0,0,0,0\n",
    ),
    // just inside each range
    (
        b"T,1,2,1,1,1\nT,2,1,16,500,999999\nM,1\nM,2\n",
        b"OK,1\nOK,2\nM,1,0,0,45001449990,60000,-45001389990,0,0\nM,2,0,0,-45001449990,60000,45001509990,45001509990,0\n",
    ),
];

// Two causes at once: the earlier one is told.
const TRADE_COMPETITIONS: &[(&[u8], &[u8])] = &[
    // 2 of the buyer before 2 of the seller
    (
        b"T,0,3,1,1,150000\nT,3,0,1,1,150000\n",
        b"NO,3,B,2,0\nNO,4,B,2,3\n",
    ),
    // 2 of the buyer before 3, 4, 5
    (
        b"T,3,2,0,1,150000\nT,3,2,17,1,150000\nT,3,2,1,0,150000\nT,3,2,1,501,150000\nT,3,2,1,1,0\nT,3,2,1,1,1000000\n",
        b"NO,3,B,2,3\nNO,4,B,2,3\nNO,5,B,2,3\nNO,6,B,2,3\nNO,7,B,2,3\nNO,8,B,2,3\n",
    ),
    // 2 before 6
    (
        b"T,3,3,1,1,150000\nT,0,0,1,1,150000\n",
        b"NO,3,B,2,3\nNO,4,B,2,0\n",
    ),
    // 2 of the seller before 3, 4, 5
    (
        b"T,1,3,0,1,150000\nT,1,3,17,1,150000\nT,1,3,1,0,150000\nT,1,3,1,501,150000\nT,1,3,1,1,0\nT,1,3,1,1,1000000\n",
        b"NO,3,B,2,3\nNO,4,B,2,3\nNO,5,B,2,3\nNO,6,B,2,3\nNO,7,B,2,3\nNO,8,B,2,3\n",
    ),
    // 2 before 7 of the other
    (
        b"T,1,2,1,500,150000\nT,0,2,1,1,150000\nT,1,3,1,1,150000\n",
        b"OK,1\nNO,4,B,2,0\nNO,5,B,2,3\n",
    ),
    // 3 before 4, 5, 6
    (
        b"T,1,2,17,0,150000\nT,1,2,0,501,150000\nT,1,2,17,1,0\nT,1,2,0,1,1000000\nT,1,1,17,1,150000\n",
        b"NO,3,B,3,17\nNO,4,B,3,0\nNO,5,B,3,17\nNO,6,B,3,0\nNO,7,B,3,17\n",
    ),
    // 4 before 5, 6, 7
    (
        b"T,1,2,1,0,0\nT,1,2,1,501,1000000\nT,1,1,1,0,150000\nT,2,2,1,501,150000\nT,1,2,1,500,150000\nT,1,2,1,501,150000\n",
        b"NO,3,B,4,0\nNO,4,B,4,0\nNO,5,B,4,0\nNO,6,B,4,0\nOK,1\nNO,8,B,4,0\n",
    ),
    // 5 before 6, 7
    (
        b"T,1,1,1,1,0\nT,2,2,1,1,1000000\nT,1,2,1,500,150000\nT,1,2,1,1,0\nT,1,2,1,1,1000000\n",
        b"NO,3,B,5,0\nNO,4,B,5,0\nOK,1\nNO,6,B,5,0\nNO,7,B,5,0\n",
    ),
    // 6 before 7
    (
        b"T,1,2,1,500,150000\nT,1,1,1,1,150000\nT,2,2,1,1,150000\n",
        b"OK,1\nNO,4,B,6,0\nNO,5,B,6,0\n",
    ),
    // all of them
    (
        b"T,3,0,17,0,0\nT,1,0,17,0,0\nT,1,1,17,0,0\nT,1,1,1,0,0\nT,1,1,1,1,0\nT,1,1,1,1,1\n",
        b"NO,3,B,2,3\nNO,4,B,2,0\nNO,5,B,3,17\nNO,6,B,4,0\nNO,7,B,5,0\nNO,8,B,6,0\n",
    ),
    // the form of the line before all
    (
        b"T,3,3,0,0,x\nT,3,3,0,501\nT,0,0,17,501,-1\nT,1,1,1,1,01\n",
        b"NO,3,L,15,6\nNO,4,L,15,0\nNO,5,L,15,6\nNO,6,L,15,6\n",
    ),
];

#[test]
fn refused_trades(rt: HostRuntime) -> Result<(), Fail> {
    run(&rt, TWO, TRADE_REFUSALS)?;
    run(&rt, TWO, TRADE_COMPETITIONS)
}

// Each cause that refuses a declaration, alone. Account 2 has bought 3 and sold 2 of product 1 by entries 1 and 2, and bought
// 1 and sold 1 of product 2 by entries 3 and 4.
const DECLARATION_REFUSALS: &[(&[u8], &[u8])] = &[
    // 2
    (
        b"T,2,1,1,3,150000\nT,1,2,1,2,150400\nT,2,1,2,1,100000\nT,1,2,2,1,100000\nC,0,1,1,2,1\nC,3,1,1,2,1\nC,9999999999,1,1,2,1\nC,4294967298,1,1,2,1\nC,258,1,1,2,1\nM,2\n",
        b"OK,1\nOK,2\nOK,3\nOK,4\nNO,7,B,2,0\nNO,8,B,2,3\nNO,9,B,2,9999999999\nNO,10,B,2,4294967298\nNO,11,B,2,258\nM,2,0,0,8000,180000,172000,172000,0\n",
    ),
    // 3
    (
        b"T,2,1,1,3,150000\nT,1,2,1,2,150400\nT,2,1,2,1,100000\nT,1,2,2,1,100000\nC,2,0,1,2,1\nC,2,17,1,2,1\nC,2,9999999999,1,2,1\nC,2,4294967297,1,2,1\nC,2,257,1,2,1\nM,2\n",
        b"OK,1\nOK,2\nOK,3\nOK,4\nNO,7,B,3,0\nNO,8,B,3,17\nNO,9,B,3,9999999999\nNO,10,B,3,4294967297\nNO,11,B,3,257\nM,2,0,0,8000,180000,172000,172000,0\n",
    ),
    // 4, low and high
    (
        b"T,2,1,1,3,150000\nT,1,2,1,2,150400\nT,2,1,2,1,100000\nT,1,2,2,1,100000\nC,2,1,1,2,0\nC,2,1,1,2,501\nC,2,1,1,2,9999999999\nC,2,1,1,2,4294967297\nM,2\n",
        b"OK,1\nOK,2\nOK,3\nOK,4\nNO,7,B,4,0\nNO,8,B,4,0\nNO,9,B,4,0\nNO,10,B,4,0\nM,2,0,0,8000,180000,172000,172000,0\n",
    ),
    // 10: an account of method F, with lots or without
    (
        b"T,2,1,1,3,150000\nT,1,2,1,2,150400\nT,2,1,2,1,100000\nT,1,2,2,1,100000\nC,1,1,1,2,1\nC,1,3,1,2,1\nT,1,2,1,5,150000\nC,1,1,5,2,1\nM,1\n",
        b"OK,1\nOK,2\nOK,3\nOK,4\nNO,7,R,10,0\nNO,8,R,10,0\nOK,5\nNO,10,R,10,0\nM,1,0,-8000,0,240000,248000,248000,0\n",
    ),
    // 11 and 1: no such number; an entry to come; number 0; one past 32 bits
    (
        b"T,2,1,1,3,150000\nT,1,2,1,2,150400\nT,2,1,2,1,100000\nT,1,2,2,1,100000\nC,2,1,9,2,1\nC,2,1,6,2,1\nC,2,1,0,2,1\nC,2,1,4294967297,2,1\nC,2,1,9999999999,2,1\nM,2\n",
        b"OK,1\nOK,2\nOK,3\nOK,4\nNO,7,B,11,1\nNO,8,B,11,1\nNO,9,B,11,1\nNO,10,B,11,1\nNO,11,B,11,1\nM,2,0,0,8000,180000,172000,172000,0\n",
    ),
    // 11 and 1: a lot of the other product, of the other side
    (
        b"T,2,1,1,3,150000\nT,1,2,1,2,150400\nT,2,1,2,1,100000\nT,1,2,2,1,100000\nC,2,1,3,2,1\nC,2,2,1,4,1\nC,2,1,2,2,1\nM,2\n",
        b"OK,1\nOK,2\nOK,3\nOK,4\nNO,7,B,11,1\nNO,8,B,11,1\nNO,9,B,11,1\nM,2,0,0,8000,180000,172000,172000,0\n",
    ),
    // 11 and 1: the entry of a deposit; the bought lot of the other account
    (
        b"T,2,1,1,3,150000\nT,1,2,1,2,150400\nT,2,1,2,1,100000\nT,1,2,2,1,100000\nD,2,1\nC,2,1,5,2,1\nT,1,2,1,1,150000\nC,2,1,6,2,1\n",
        b"OK,1\nOK,2\nOK,3\nOK,4\nOK,5\nNO,8,B,11,1\nOK,6\nNO,10,B,11,1\n",
    ),
    // 11 and 1: a lot that has left
    (
        b"T,2,1,1,1,150000\nT,1,2,1,2,150400\nC,2,1,1,2,1\nC,2,1,1,2,1\nM,2\n",
        b"OK,1\nOK,2\nOK,3\nNO,6,B,11,1\nM,2,0,4000,4000,60000,52000,52000,0\n",
    ),
    // 11 and 2: the same of the sold lot
    (
        b"T,2,1,1,3,150000\nT,1,2,1,2,150400\nT,2,1,2,1,100000\nT,1,2,2,1,100000\nC,2,1,1,9,1\nC,2,1,1,0,1\nC,2,1,1,4294967298,1\nC,2,1,1,4,1\nC,2,2,3,2,1\nC,2,1,1,1,1\nM,2\n",
        b"OK,1\nOK,2\nOK,3\nOK,4\nNO,7,B,11,2\nNO,8,B,11,2\nNO,9,B,11,2\nNO,10,B,11,2\nNO,11,B,11,2\nNO,12,B,11,2\nM,2,0,0,8000,180000,172000,172000,0\n",
    ),
    // 11 and 2: the entry of a deposit; the sold lot of the other account
    (
        b"T,2,1,1,3,150000\nT,1,2,1,2,150400\nT,2,1,2,1,100000\nT,1,2,2,1,100000\nD,2,1\nC,2,1,1,5,1\nT,2,1,1,1,150000\nC,2,1,1,6,1\n",
        b"OK,1\nOK,2\nOK,3\nOK,4\nOK,5\nNO,8,B,11,2\nOK,6\nNO,10,B,11,2\n",
    ),
    // 11 and 2: a lot that has left
    (
        b"T,2,1,1,2,150000\nT,1,2,1,1,150400\nC,2,1,1,2,1\nC,2,1,1,2,1\nM,2\n",
        b"OK,1\nOK,2\nOK,3\nNO,6,B,11,2\nM,2,0,4000,0,60000,56000,56000,0\n",
    ),
    // 12 and the smaller remainder, that of the sold lot
    (
        b"T,2,1,1,3,150000\nT,1,2,1,2,150400\nT,2,1,2,1,100000\nT,1,2,2,1,100000\nC,2,1,1,2,3\nC,2,1,1,2,500\nC,2,1,1,2,1\nC,2,1,1,2,2\nC,2,1,1,2,1\nM,2\n",
        b"OK,1\nOK,2\nOK,3\nOK,4\nNO,7,B,12,2\nNO,8,B,12,2\nOK,5\nNO,10,B,12,1\nOK,6\nM,2,0,8000,0,60000,52000,52000,0\n",
    ),
    // 12 and the smaller remainder, that of the bought lot
    (
        b"T,2,1,1,2,150000\nT,1,2,1,3,150400\nC,2,1,1,2,3\nC,2,1,1,2,1\nC,2,1,1,2,2\nM,2\n",
        b"OK,1\nOK,2\nNO,5,B,12,2\nOK,3\nNO,7,B,12,1\nM,2,0,4000,8000,120000,108000,108000,0\n",
    ),
    // 12 where both are alike
    (
        b"T,2,1,1,3,150000\nT,1,2,1,2,150400\nT,2,1,2,1,100000\nT,1,2,2,1,100000\nC,2,2,3,4,2\nC,2,2,3,4,1\n",
        b"OK,1\nOK,2\nOK,3\nOK,4\nNO,7,B,12,1\nOK,5\n",
    ),
];

// Two causes at once: the earlier one is told.
const DECLARATION_COMPETITIONS: &[(&[u8], &[u8])] = &[
    // 2 before 3, 4, 10, 11
    (
        b"T,2,1,1,3,150000\nT,1,2,1,2,150400\nT,2,1,2,1,100000\nT,1,2,2,1,100000\nC,3,0,1,2,1\nC,0,17,1,2,1\nC,3,1,1,2,0\nC,0,1,1,2,501\nC,3,1,9,2,1\nC,3,1,1,9,1\n",
        b"OK,1\nOK,2\nOK,3\nOK,4\nNO,7,B,2,3\nNO,8,B,2,0\nNO,9,B,2,3\nNO,10,B,2,0\nNO,11,B,2,3\nNO,12,B,2,3\n",
    ),
    // 3 before 4, 10, 11
    (
        b"T,2,1,1,3,150000\nT,1,2,1,2,150400\nT,2,1,2,1,100000\nT,1,2,2,1,100000\nC,2,0,1,2,0\nC,2,17,1,2,501\nC,1,17,1,2,1\nC,2,17,9,2,1\nC,2,0,1,9,1\n",
        b"OK,1\nOK,2\nOK,3\nOK,4\nNO,7,B,3,0\nNO,8,B,3,17\nNO,9,B,3,17\nNO,10,B,3,17\nNO,11,B,3,0\n",
    ),
    // 4 before 10, 11, 12
    (
        b"T,2,1,1,3,150000\nT,1,2,1,2,150400\nT,2,1,2,1,100000\nT,1,2,2,1,100000\nC,1,1,1,2,0\nC,1,1,1,2,501\nC,2,1,9,2,0\nC,2,1,1,9,501\nC,2,1,1,2,501\n",
        b"OK,1\nOK,2\nOK,3\nOK,4\nNO,7,B,4,0\nNO,8,B,4,0\nNO,9,B,4,0\nNO,10,B,4,0\nNO,11,B,4,0\n",
    ),
    // 10 before 11
    (
        b"T,2,1,1,3,150000\nT,1,2,1,2,150400\nT,2,1,2,1,100000\nT,1,2,2,1,100000\nC,1,1,9,2,1\nC,1,1,1,9,1\nC,1,1,9,9,500\n",
        b"OK,1\nOK,2\nOK,3\nOK,4\nNO,7,R,10,0\nNO,8,R,10,0\nNO,9,R,10,0\n",
    ),
    // 11 and 1 before 11 and 2
    (
        b"T,2,1,1,3,150000\nT,1,2,1,2,150400\nT,2,1,2,1,100000\nT,1,2,2,1,100000\nC,2,1,9,9,1\nC,2,1,2,1,1\nC,2,3,1,2,1\nC,2,1,0,0,500\n",
        b"OK,1\nOK,2\nOK,3\nOK,4\nNO,7,B,11,1\nNO,8,B,11,1\nNO,9,B,11,1\nNO,10,B,11,1\n",
    ),
    // 11 where the quantity is above the other lot's remainder
    (
        b"T,2,1,1,3,150000\nT,1,2,1,2,150400\nT,2,1,2,1,100000\nT,1,2,2,1,100000\nC,2,1,9,2,500\nC,2,1,1,9,500\n",
        b"OK,1\nOK,2\nOK,3\nOK,4\nNO,7,B,11,1\nNO,8,B,11,2\n",
    ),
    // all of them
    (
        b"T,2,1,1,3,150000\nT,1,2,1,2,150400\nT,2,1,2,1,100000\nT,1,2,2,1,100000\nC,3,17,9,9,501\nC,1,17,9,9,501\nC,1,1,9,9,501\nC,1,1,9,9,500\nC,2,1,9,9,500\nC,2,1,1,9,500\nC,2,1,1,2,500\n",
        b"OK,1\nOK,2\nOK,3\nOK,4\nNO,7,B,2,3\nNO,8,B,3,17\nNO,9,B,4,0\nNO,10,R,10,0\nNO,11,B,11,1\nNO,12,B,11,2\nNO,13,B,12,2\n",
    ),
    // the form of the line before all
    (
        b"T,2,1,1,3,150000\nT,1,2,1,2,150400\nT,2,1,2,1,100000\nT,1,2,2,1,100000\nC,3,17,9,9,x\nC,3,17,9,9\nC,1,0,-1,9,501\nC,2,1,1,02,1\n",
        b"OK,1\nOK,2\nOK,3\nOK,4\nNO,7,L,15,6\nNO,8,L,15,0\nNO,9,L,15,4\nNO,10,L,15,5\n",
    ),
];

#[test]
fn refused_declarations(rt: HostRuntime) -> Result<(), Fail> {
    run(&rt, TWO, DECLARATION_REFUSALS)?;
    run(&rt, TWO, DECLARATION_COMPETITIONS)
}

// Withdrawals around what is open: 14 and what may be withdrawn.
const WITHDRAWAL_CASES: &[(&[u8], &[u8])] = &[
    // the base amount stays
    (
        b"D,1,100000\nT,1,2,1,1,150000\nW,1,40001\nW,1,40000\nM,1\nW,1,1\n",
        b"OK,1\nOK,2\nNO,5,B,14,40000\nOK,3\nM,1,60000,0,0,60000,60000,0,0\nNO,8,B,14,0\n",
    ),
    // the base amount and an open loss stay
    (
        b"D,1,100000\nT,1,2,1,1,150500\nM,1\nW,1,35001\nW,1,35000\nW,1,1\nM,1\n",
        b"OK,1\nOK,2\nM,1,100000,0,-5000,60000,65000,0,35000\nNO,6,B,14,35000\nOK,3\nNO,8,B,14,0\nM,1,65000,0,-5000,60000,65000,0,0\n",
    ),
    // an open gain is not paid out
    (
        b"D,1,100000\nT,1,2,1,1,149500\nM,1\nW,1,40001\nW,1,40000\nM,1\n",
        b"OK,1\nOK,2\nM,1,100000,0,5000,60000,55000,0,40000\nNO,6,B,14,40000\nOK,3\nM,1,60000,0,5000,60000,55000,0,0\n",
    ),
    // a settled gain stands for the base amount, but no more than the deposit goes
    (
        b"D,1,100000\nT,1,2,1,1,150000\nT,2,1,1,1,152000\nM,1\nW,1,100001\nT,1,2,1,1,150000\nM,1\nW,1,60001\nW,1,60000\nM,1\n",
        b"OK,1\nOK,2\nOK,3\nM,1,100000,20000,0,0,-20000,0,100000\nNO,7,B,14,100000\nOK,4\nM,1,100000,20000,0,60000,40000,0,60000\nNO,10,B,14,60000\nOK,5\nM,1,40000,20000,0,60000,40000,0,0\n",
    ),
    // a settled gain above all that is asked: the deposit is the limit
    (
        b"D,1,100\nT,1,2,1,2,150000\nT,2,1,1,2,155000\nT,1,2,1,1,150000\nM,1\nW,1,101\nW,1,100\nM,1\nW,1,1\n",
        b"OK,1\nOK,2\nOK,3\nOK,4\nM,1,100,100000,0,60000,-40000,0,100\nNO,8,B,14,100\nOK,5\nM,1,0,100000,0,60000,-40000,0,0\nNO,11,B,14,0\n",
    ),
    // a settled loss is kept back
    (
        b"D,1,100000\nT,1,2,1,1,150000\nT,2,1,1,1,149000\nM,1\nW,1,90001\nW,1,90000\nM,1\nW,1,1\n",
        b"OK,1\nOK,2\nOK,3\nM,1,100000,-10000,0,0,10000,0,90000\nNO,7,B,14,90000\nOK,4\nM,1,10000,-10000,0,0,10000,0,0\nNO,10,B,14,0\n",
    ),
    // nothing where the deposit is short
    (
        b"D,1,59999\nT,1,2,1,1,150000\nM,1\nW,1,1\nD,1,1\nW,1,1\nD,1,1\nW,1,2\nW,1,1\n",
        b"OK,1\nOK,2\nM,1,59999,0,0,60000,60000,1,0\nNO,6,B,14,0\nOK,3\nNO,8,B,14,0\nOK,4\nNO,10,B,14,1\nOK,5\n",
    ),
    // no deposit: a settled gain alone is never paid out
    (
        b"T,1,2,2,1,100000\nT,2,1,2,1,100040\nM,1\nW,1,1\n",
        b"OK,1\nOK,2\nM,1,0,4000,0,0,-4000,0,0\nNO,6,B,14,0\n",
    ),
    // the loss is that of the whole, not of one product
    (
        b"D,1,100000\nT,1,2,1,1,150500\nT,1,2,2,1,99960\nM,1\nW,1,39001\nW,1,39000\n",
        b"OK,1\nOK,2\nOK,3\nM,1,100000,0,-1000,60000,61000,0,39000\nNO,7,B,14,39000\nOK,4\n",
    ),
    // a declared pair frees its base amount
    (
        b"D,2,200000\nT,2,1,1,3,150000\nW,2,20001\nT,1,2,1,3,150400\nW,2,20001\nC,2,1,2,3,1\nW,2,84001\nW,2,84000\nM,2\n",
        b"OK,1\nOK,2\nNO,5,B,14,20000\nOK,3\nNO,7,B,14,20000\nOK,4\nNO,9,B,14,84000\nOK,5\nM,2,116000,4000,8000,120000,108000,0,0\n",
    ),
    // 13 before 14 where lots are open
    (
        b"D,1,60000\nT,1,2,1,1,150000\nW,1,0\nW,1,1000000001\nW,1,1000000000\n",
        b"OK,1\nOK,2\nNO,5,B,13,0\nNO,6,B,13,0\nNO,7,B,14,0\n",
    ),
];

#[test]
fn withdrawals_beside_lots(rt: HostRuntime) -> Result<(), Fail> {
    run(&rt, TWO, WITHDRAWAL_CASES)
}

// Refused lines and reports take no entry number: the numbers of later lots tell it.
const ENTRY_CASES: &[(&[u8], &[u8])] = &[
    (
        b"T,2,1,1,1,150000\nT,1,1,1,1,150000\nT,1,2,17,1,150000\nx\nM,2\nC,2,1,1,2,1\nW,2,1\nD,2,0\nT,1,2,1,1,150400\nC,2,1,1,9,1\nC,2,1,1,2,1\nM,2\n",
        b"OK,1\nNO,4,B,6,0\nNO,5,B,3,17\nNO,6,L,15,1\nM,2,0,0,0,60000,60000,60000,0\nNO,8,B,11,2\nNO,9,B,14,0\nNO,10,B,13,0\nOK,2\nNO,12,B,11,2\nOK,3\nM,2,0,4000,0,0,-4000,0,0\n",
    ),
    (
        b"T,0,0,0,0,0\nC,0,0,0,0,0\nD,2,5\nT,2,1,1,2,150000\nT,2,1,1,501,150000\nM,1\nT,1,2,1,2,150100\nC,2,1,2,3,3\nC,2,1,2,3,1\nC,1,1,2,3,1\nW,2,6\nC,2,1,2,3,1\nT,2,1\nT,2,1,1,1,150000\nC,2,1,6,6,1\nM,2\n",
        b"NO,3,B,2,0\nNO,4,B,2,0\nOK,1\nOK,2\nNO,7,B,4,0\nM,1,0,0,0,120000,120000,120000,0\nOK,3\nNO,10,B,12,2\nOK,4\nNO,12,R,10,0\nNO,13,B,14,0\nOK,5\nNO,15,L,15,0\nOK,6\nNO,17,B,11,2\nM,2,5,2000,0,60000,58000,57995,0\n",
    ),
    // declarations, deposits and withdrawals take one each
    (
        b"D,2,1000000\nT,2,1,1,1,150000\nW,2,1\nT,1,2,1,1,150100\nC,2,1,2,4,1\nT,2,1,1,1,150000\nT,1,2,1,1,150000\nC,2,1,5,7,1\nC,2,1,6,7,1\nD,1,1\n",
        b"OK,1\nOK,2\nOK,3\nOK,4\nOK,5\nOK,6\nOK,7\nNO,10,B,11,1\nOK,8\nOK,9\n",
    ),
];

#[test]
fn entry_numbers(rt: HostRuntime) -> Result<(), Fail> {
    run(&rt, TWO, ENTRY_CASES)
}

// 1,024 lot places. Three trades of product 3 and 500 of product 1 and 9 of product 2 fill them; each is counted, and a
// lot that leaves makes one free. One free place is not enough.
const LOT_PLACES: &[(&[u8], u32)] = &[
    (b"T,2,4,3,3,160000\nT,4,2,3,1,160000\nT,4,2,3,1,160010\n", 1),
    (b"T,2,4,1,1,150000\n", 500),
    (b"T,2,4,2,1,150100\n", 9),
    (
        b"T,1,3,4,1,160100\nM,1\nC,2,3,1,2,1\nT,1,3,4,1,160100\nC,2,3,1,3,1\nT,1,3,4,1,160100\nM,1\nM,2\nT,1,3,4,1,160100\nT,3,1,4,1,160100\n",
        1,
    ),
    (
        b"T,2,4,1,1,150000\nT,1,4,1,1,150000\nT,2,1,1,1,150000\nT,1,1,4,1,160100\nT,1,3,4,1,0\nT,1,3,4,501,160100\nT,1,3,17,1,160100\nT,1,5,4,1,160100\nT,5,3,4,1,160100\n",
        1,
    ),
    (
        b"C,4,3,3,1,1\nT,3,1,4,1,160200\nC,4,3,2,1,1\nT,3,1,4,1,160200\nM,1\nM,3\nT,1,3,4,1,160100\nM,4\nD,1,1\n",
        1,
    ),
];

const LOT_PLACES_TEXT: &[(u32, u32, &[u8])] = &[(
    1,
    512,
    b"NO,515,B,8,0\nM,1,0,0,0,0,0,0,0\nOK,513\nNO,518,B,8,0\nOK,514\nOK,515\nM,1,0,0,0,650000,650000,650000,0\nM,2,0,100,0,35465000,35464900,35464900,0\nNO,523,B,8,0\nNO,524,B,8,0\nNO,525,B,7,2\nNO,526,B,7,4\nNO,527,B,7,2\nNO,528,B,6,0\nNO,529,B,5,0\nNO,530,B,4,0\nNO,531,B,3,17\nNO,532,B,2,5\nNO,533,B,2,5\nOK,516\nNO,535,B,8,0\nOK,517\nOK,518\nM,1,0,10000,0,0,-10000,0,0\nM,3,0,-10000,0,0,10000,10000,0\nOK,519\nM,4,0,-100,0,35465000,35465100,35465100,0\nOK,520\n",
)];

#[test]
fn lot_places(rt: HostRuntime) -> Result<(), Fail> {
    run_parts(&rt, FOUR, LOT_PLACES, LOT_PLACES_TEXT)
}

// 2,000 slip places. 500 purchases of 1 contract by one F account from another are closed by one trade: 500 slips each.
// With 1,000 free another such trade is taken; then none is free, for a trade or a declaration.
const ONE_TRADE_MAKES_1000_SLIPS: &[(&[u8], u32)] = &[
    (
        b"T,2,4,2,500,150100\nT,4,2,2,500,150100\nT,2,4,4,500,160100\nT,4,2,4,500,160100\n",
        1,
    ),
    (b"T,3,1,1,1,150000\n", 500),
    (b"T,1,3,1,500,150001\nM,1\nM,3\n", 1),
    (b"T,3,1,1,1,150000\n", 500),
    (
        b"T,1,3,1,500,150001\nM,1\nM,3\nT,1,3,1,1,150000\nT,2,4,3,1,160000\nC,2,2,1,2,1\n",
        1,
    ),
    (b"C,5,2,1,2,1\nC,2,17,1,2,1\nC,2,2,1,2,501\n", 1),
    (
        b"C,1,1,1,2,1\nC,2,2,9,2,1\nC,2,2,1,9,1\nC,2,2,1,2,500\nC,2,5,1,2,1\n",
        1,
    ),
    (
        b"T,2,1,2,1,150100\nT,1,2,2,1,150100\nT,1,1,2,1,150100\nT,1,2,2,1,0\nT,1,2,2,0,150100\nT,1,2,0,1,150100\nT,1,0,2,1,150100\nD,1,1\nM,2\n",
        1,
    ),
];

const ONE_TRADE_MAKES_1000_SLIPS_TEXT: &[(u32, u32, &[u8])] = &[
    (
        1,
        505,
        b"M,1,0,-5000,0,0,5000,5000,0\nM,3,0,5000,0,0,-5000,0,0\n",
    ),
    (
        506,
        1006,
        b"M,1,0,-10000,0,0,10000,10000,0\nM,3,0,10000,0,0,-10000,0,0\nNO,1013,B,8,0\nNO,1014,B,8,0\nNO,1015,B,8,0\nNO,1016,B,2,5\nNO,1017,B,3,17\nNO,1018,B,4,0\nNO,1019,B,8,0\nNO,1020,B,8,0\nNO,1021,B,8,0\nNO,1022,B,8,0\nNO,1023,B,8,0\nNO,1024,B,7,2\nNO,1025,B,7,2\nNO,1026,B,6,0\nNO,1027,B,5,0\nNO,1028,B,4,0\nNO,1029,B,3,0\nNO,1030,B,2,0\nOK,1007\nM,2,0,0,0,625000000,625000000,625000000,0\n",
    ),
];

#[test]
fn one_trade_makes_1000_slips(rt: HostRuntime) -> Result<(), Fail> {
    run_parts(
        &rt,
        FOUR,
        ONE_TRADE_MAKES_1000_SLIPS,
        ONE_TRADE_MAKES_1000_SLIPS_TEXT,
    )
}

// One slip by declaration beyond 1,000 and trades are refused; declarations are taken until all 2,000 places are used.
const SLIP_PLACES: &[(&[u8], u32)] = &[
    (
        b"T,2,4,2,500,150100\nT,4,2,2,500,150100\nT,2,4,4,500,160100\nT,4,2,4,500,160100\n",
        1,
    ),
    (
        b"T,2,4,6,500,190100\nT,4,2,6,500,190000\nT,2,4,8,500,100100\nT,4,2,8,500,100101\n",
        1,
    ),
    (b"C,2,2,1,2,1\n", 500),
    (b"C,2,4,3,4,1\n", 499),
    (
        b"T,1,3,1,1,150000\nC,2,4,3,4,1\nT,1,3,1,1,150000\nC,2,6,5,6,1\nT,1,3,1,1,150000\nM,1\n",
        1,
    ),
    (b"C,2,6,5,6,1\n", 499),
    (b"C,2,8,7,8,1\n", 499),
    (
        b"T,1,3,1,1,150000\nC,2,8,7,8,1\nM,2\nC,2,8,7,8,1\nC,4,8,8,7,1\nT,3,1,1,1,150000\nM,4\n",
        1,
    ),
];

const SLIP_PLACES_TEXT: &[(u32, u32, &[u8])] = &[
    (
        1,
        1011,
        b"NO,1014,B,8,0\nM,1,0,0,0,120000,120000,120000,0\n",
    ),
    (
        1012,
        2009,
        b"NO,2014,B,8,0\nOK,2010\nM,2,0,-4950000,0,0,4950000,4950000,0\nNO,2017,B,8,0\nNO,2018,B,8,0\nNO,2019,B,8,0\nM,4,0,0,4950000,1225000000,1220050000,1220050000,0\n",
    ),
];

#[test]
fn slip_places(rt: HostRuntime) -> Result<(), Fail> {
    run_parts(&rt, FOUR, SLIP_PLACES, SLIP_PLACES_TEXT)
}

// What each round of the long file adds: a trade, a part of it closed, a declaration, and refused lines between.
const YEN_TRADES: &[u8] = b"T,1,2,1,2,149900\nT,2,1,1,1,150000\n";

const REFUSED_TRADES: &[u8] = b"T,1,2,1,501,149900\nT,1,1,1,1,149900\nT,0,2,1,1,149900\n";

const CROSS_TRADES: &[u8] = b"T,1,2,11,1,99999\nT,2,1,11,1,100002\n";

const REFUSED_CALLS: &[u8] = b"C,1,1,1,1,1\nT,1,2,17,1,150000\n";

const PAYMENTS: &[u8] = b"D,1,100000\nD,2,200000\nW,2,1000\nM,1\nM,2\nW,2,1000000000\nM,3\nx\n";

// So many rounds. Each has 20 lines and takes 9 entry numbers.
const ROUNDS: u32 = 247;

// A declaration of account 2.
fn declaration(heap: Global, product: u32, bought: u32, sold: u32) -> Result<String, AllocError> {
    format!(in heap; "C,2,{product},{bought},{sold},1\n")
}

// All rounds.
fn all_rounds(heap: Global) -> Result<Vec<u8>, AllocError> {
    let mut input = TWO.to_vec(heap)?;
    for n in 0..ROUNDS {
        let entry = 9 * n;
        input.extend_from_slice(YEN_TRADES)?;
        put(&mut input, declaration(heap, 1, entry + 2, entry + 1)?)?;
        put(&mut input, declaration(heap, 1, entry + 2, entry + 1)?)?;
        input.extend_from_slice(REFUSED_TRADES)?;
        input.extend_from_slice(CROSS_TRADES)?;
        put(&mut input, declaration(heap, 11, entry + 5, entry + 4)?)?;
        input.extend_from_slice(REFUSED_CALLS)?;
        input.extend_from_slice(PAYMENTS)?;
    }
    Ok(input)
}

// A line is refused for this cause.
fn refused(heap: Global, line: u32, cause: &str) -> Result<String, AllocError> {
    format!(in heap; "NO,{line},{cause}\n")
}

// What a round adds to the figures of account 1: it bought 2 and sold 1 in each, and gained 1,000 yen and 300 hundredths by them.
const FIRST: [i64; 7] = [100_000, 1_450, 1_000, 60_000, 57_550, 0, 41_450];

// Account 2 lost them.
const SECOND: [i64; 7] = [199_000, -1_450, -1_000, 60_000, 62_450, 0, 136_550];

// An account after so many rounds, each of which added so much.
fn report_after(
    heap: Global,
    account: u32,
    rounds: u32,
    each: [i64; 7],
) -> Result<String, AllocError> {
    let n = i64::from(rounds);
    report(heap, account, each.map(|figure| figure.wrapping_mul(n)))
}

// What may be withdrawn then, as the detail of a refusal.
fn too_much(heap: Global, line: u32, rounds: u32) -> Result<String, AllocError> {
    let withdrawable = 136_550 * u64::from(rounds);
    format!(in heap; "NO,{line},B,14,{withdrawable}\n")
}

// What is printed for all rounds.
fn all_answers(heap: Global) -> Result<Vec<u8>, AllocError> {
    let mut text = b"OK,0\nOK,0\n".to_vec(heap)?;
    for n in 0..ROUNDS {
        let entry = 9 * n;
        let line = 20 * n + 3;
        text.extend_from_slice(accepted(heap, entry + 1, entry + 3)?.as_slice())?;
        put(&mut text, refused(heap, line + 3, "B,11,1")?)?;
        put(&mut text, refused(heap, line + 4, "B,4,0")?)?;
        put(&mut text, refused(heap, line + 5, "B,6,0")?)?;
        put(&mut text, refused(heap, line + 6, "B,2,0")?)?;
        text.extend_from_slice(accepted(heap, entry + 4, entry + 6)?.as_slice())?;
        put(&mut text, refused(heap, line + 10, "R,10,0")?)?;
        put(&mut text, refused(heap, line + 11, "B,3,17")?)?;
        text.extend_from_slice(accepted(heap, entry + 7, entry + 9)?.as_slice())?;
        put(&mut text, report_after(heap, 1, n + 1, FIRST)?)?;
        put(&mut text, report_after(heap, 2, n + 1, SECOND)?)?;
        put(&mut text, too_much(heap, line + 17, n + 1)?)?;
        put(&mut text, refused(heap, line + 18, "B,2,3")?)?;
        put(&mut text, refused(heap, line + 19, "L,15,1")?)?;
    }
    Ok(text)
}

// A file of nearly 65,536 bytes.
#[test]
fn long_file(rt: HostRuntime) -> Result<(), Fail> {
    let heap = rt.alloc();
    let input = all_rounds(heap)?;
    assert_eq!(rt; input.len(), 65_368);
    let text = all_answers(heap)?;
    run(&rt, b"", &[(input.as_slice(), text.as_slice())])
}

// A trade's five numbers and its cause.
type TradeCase = (u64, u64, u64, u64, u64, Refusal);

// All entries are taken, two lot places are free, and account 1 has bought 2 and sold 1 of product 1.
const TRADES_TOO_LATE: &[TradeCase] = &[
    // good but for the entries
    (1, 2, 1, 1, 100, Refusal::Entries),
    (2, 1, 16, 500, 999_999, Refusal::Entries),
    // every earlier cause before 9
    (3, 2, 1, 1, 100, Refusal::Account(3)),
    (1, 3, 1, 1, 100, Refusal::Account(3)),
    (1, 2, 17, 1, 100, Refusal::Product(17)),
    (1, 2, 1, 501, 100, Refusal::Quantity),
    (1, 2, 1, 1, 0, Refusal::Figure),
    (1, 1, 1, 1, 100, Refusal::SameAccount),
    (1, 2, 1, 499, 100, Refusal::PositionLimit(1)),
    (2, 1, 1, 500, 100, Refusal::PositionLimit(2)),
];

// Declarations there, under a rule by which every account declares.
const DECLARATIONS_TOO_LATE: &[TradeCase] = &[
    // good but for the entries
    (1, 1, 1, 2, 1, Refusal::Entries),
    // 9 before 11 and 12
    (1, 1, 9, 2, 1, Refusal::Entries),
    (1, 1, 1, 9, 1, Refusal::Entries),
    (1, 1, 1, 2, 2, Refusal::Entries),
    // every earlier cause before 9
    (3, 1, 1, 2, 1, Refusal::Account(3)),
    (1, 0, 1, 2, 1, Refusal::Product(0)),
    (1, 1, 1, 2, 0, Refusal::Quantity),
];

// Trades and declarations where no slip place is free either.
const TRADES_WITHOUT_PLACES: &[TradeCase] = &[
    // 8 before 9
    (1, 2, 3, 1, 100, Refusal::Places),
    // 7 before both
    (2, 1, 1, 1, 100, Refusal::PositionLimit(2)),
];

const DECLARATIONS_WITHOUT_PLACES: &[TradeCase] = &[
    // 8 before 9
    (2, 1, 2, 1, 1, Refusal::Places),
    (1, 1, 9, 9, 1, Refusal::Places),
    // 4 before both
    (2, 1, 2, 1, 501, Refusal::Quantity),
];

// Each trade and each declaration is refused for its cause.
fn are_refused(rt: &impl Abort, book: &mut Book, trades: &[TradeCase], declarations: &[TradeCase]) {
    each_is_refused(
        rt,
        trades,
        |(buyer, seller, product, quantity, price, cause)| {
            let answer = book.trade(&Designated, *buyer, *seller, *product, *quantity, *price);
            (answer, *cause)
        },
    );
    each_is_refused(
        rt,
        declarations,
        |(account, product, bought, sold, quantity, cause)| {
            let answer = book.declare(&Designated, *account, *product, *bought, *sold, *quantity);
            (answer, *cause)
        },
    );
}

// No file holds 20,000 entries, so the book itself is asked: 9 comes after 8 and before 10.
#[test]
fn all_entries_taken(rt: HostRuntime) -> Result<(), Fail> {
    let mut lots = [Lot::EMPTY; 6];
    let mut slips = [Slip::EMPTY; 1_000];
    let opening = Opening::check(2, &PRICES, 6, 1_000)?;
    let mut book = Book::open(opening, &mut lots, &mut slips);
    assert_eq!(rt; book.trade(&Designated, 1, 2, 1, 2, 100), Ok(1));
    assert_eq!(rt; book.trade(&Designated, 2, 1, 1, 1, 110), Ok(2));
    take_entries(&rt, &mut book, 3);
    are_refused(&rt, &mut book, TRADES_TOO_LATE, DECLARATIONS_TOO_LATE);
    // 9 before 10
    assert_eq!(rt;
        book.declare(&OldestFirst, 1, 1, 1, 2, 1),
        Err(Refusal::Entries)
    );
    Ok(())
}

// Account 1 uses all slip places: 500 slips of product 1 and 500 of product 2, by entries 5 to 1,004.
fn take_slip_places(rt: &impl Abort, book: &mut Book) {
    for entry in 5..=504u32 {
        assert_eq!(rt; book.declare(&Designated, 1, 1, 1, 2, 1), Ok(entry));
    }
    for entry in 505..=1_004u32 {
        assert_eq!(rt; book.declare(&Designated, 1, 2, 3, 4, 1), Ok(entry));
    }
}

#[test]
fn all_places_and_entries_taken(rt: HostRuntime) -> Result<(), Fail> {
    let mut lots = [Lot::EMPTY; 8];
    let mut slips = [Slip::EMPTY; 1_000];
    let opening = Opening::check(2, &PRICES, 8, 1_000)?;
    let mut book = Book::open(opening, &mut lots, &mut slips);
    assert_eq!(rt; book.trade(&Designated, 1, 2, 1, 500, 100), Ok(1));
    assert_eq!(rt; book.trade(&Designated, 2, 1, 1, 500, 110), Ok(2));
    assert_eq!(rt; book.trade(&Designated, 1, 2, 2, 500, 100), Ok(3));
    assert_eq!(rt; book.trade(&Designated, 2, 1, 2, 500, 110), Ok(4));
    take_slip_places(&rt, &mut book);
    take_entries(&rt, &mut book, 1_005);
    are_refused(
        &rt,
        &mut book,
        TRADES_WITHOUT_PLACES,
        DECLARATIONS_WITHOUT_PLACES,
    );
    // 8 before 10
    assert_eq!(rt;
        book.declare(&OldestFirst, 2, 1, 2, 1, 1),
        Err(Refusal::Places)
    );
    Ok(())
}

// A rule that pairs is asked only after 7 is tested, and 10 comes before 12: the lots were made under a rule that never
// pairs, so both sides are open.
#[test]
fn counted_before_pairing(rt: HostRuntime) -> Result<(), Fail> {
    let mut lots = [Lot::EMPTY; 20];
    let mut slips = [Slip::EMPTY; 2_000];
    let opening = Opening::check(3, &PRICES, 20, 2_000)?;
    let mut book = Book::open(opening, &mut lots, &mut slips);
    assert_eq!(rt; book.trade(&Designated, 1, 2, 1, 400, 100), Ok(1));
    assert_eq!(rt; book.trade(&Designated, 2, 1, 1, 200, 100), Ok(2));
    assert_eq!(rt;
        book.declare(&OldestFirst, 1, 1, 1, 2, 201),
        Err(Refusal::NotDeclaring)
    );
    assert_eq!(rt;
        book.declare(&Designated, 1, 1, 1, 2, 201),
        Err(Refusal::Remainder(200))
    );
    // 400 bought and 200 sold, or the other way round: 101 more pass 500, though 200 would be paired
    assert_eq!(rt;
        book.trade(&OldestFirst, 1, 3, 1, 101, 100),
        Err(Refusal::PositionLimit(1))
    );
    assert_eq!(rt;
        book.trade(&OldestFirst, 3, 2, 1, 101, 100),
        Err(Refusal::PositionLimit(2))
    );
    assert_eq!(rt; book.trade(&OldestFirst, 1, 2, 1, 100, 100), Ok(3));
    // 300 are left
    assert_eq!(rt;
        book.trade(&OldestFirst, 1, 2, 1, 201, 100),
        Err(Refusal::PositionLimit(1))
    );
    assert_eq!(rt; book.trade(&OldestFirst, 1, 2, 1, 200, 100), Ok(4));
    Ok(())
}
