//! What is read of requests, and what is not.
//!
//! The requests are of other hands: some were made by hand, one by the SDK of Go. What they say was written down independently; it
//! stands here as the requests that this crate makes of it.
use super::*;
use crate::tests::{ATTRIBUTES, FIRST, HISTOGRAMS, SCOPES};
use crate::wire::close_block;
use point_kit::ExportFault;
use std::alloc::Global;
use std::test::Fail;

// Attributes of a resource: its service, its instance, another instance, and what the kit passes over.
const SERVICE: [u8; 24] = [
    10, 22, 10, 12, 115, 101, 114, 118, 105, 99, 101, 46, 110, 97, 109, 101, 18, 6, 10, 4, 115,
    104, 111, 112,
];

pub(crate) const INSTANCE: [u8; 63] = [
    10, 61, 10, 19, 115, 101, 114, 118, 105, 99, 101, 46, 105, 110, 115, 116, 97, 110, 99, 101, 46,
    105, 100, 18, 38, 10, 36, 48, 48, 48, 48, 48, 48, 48, 48, 45, 48, 48, 48, 48, 45, 48, 48, 48,
    48, 45, 48, 48, 48, 48, 45, 48, 48, 48, 48, 48, 48, 48, 48, 48, 48, 48, 49,
];

const OTHER_INSTANCE: [u8; 63] = [
    10, 61, 10, 19, 115, 101, 114, 118, 105, 99, 101, 46, 105, 110, 115, 116, 97, 110, 99, 101, 46,
    105, 100, 18, 38, 10, 36, 65, 65, 65, 65, 65, 65, 65, 65, 45, 48, 48, 48, 48, 45, 48, 48, 48,
    48, 45, 48, 48, 48, 48, 45, 48, 48, 48, 48, 48, 48, 48, 48, 48, 48, 48, 66,
];

const SDK: [u8; 51] = [
    10, 25, 10, 18, 116, 101, 108, 101, 109, 101, 116, 114, 121, 46, 115, 100, 107, 46, 110, 97,
    109, 101, 18, 3, 10, 1, 120, 10, 22, 10, 15, 115, 101, 114, 118, 105, 99, 101, 46, 118, 101,
    114, 115, 105, 111, 110, 18, 3, 10, 1, 49,
];

// Three exports of a resource, with fields that are left out.
const ALL_KINDS: [u8; 185] = [
    18, 171, 1, 10, 5, 10, 3, 97, 112, 112, 18, 78, 10, 1, 120, 18, 4, 116, 111, 108, 100, 26, 1,
    49, 58, 64, 10, 58, 17, 100, 0, 0, 0, 0, 0, 0, 0, 25, 200, 0, 0, 0, 0, 0, 0, 0, 42, 0, 49, 7,
    0, 0, 0, 0, 0, 0, 0, 58, 7, 10, 1, 98, 18, 2, 16, 1, 58, 16, 10, 1, 97, 18, 11, 24, 251, 255,
    255, 255, 255, 255, 255, 255, 255, 1, 64, 2, 16, 2, 24, 1, 18, 28, 10, 1, 103, 26, 1, 49, 42,
    20, 10, 18, 25, 200, 0, 0, 0, 0, 0, 0, 0, 49, 7, 0, 0, 0, 0, 0, 0, 0, 18, 41, 10, 1, 121, 26,
    1, 49, 58, 33, 10, 27, 17, 100, 0, 0, 0, 0, 0, 0, 0, 25, 44, 1, 0, 0, 0, 0, 0, 0, 49, 7, 0, 0,
    0, 0, 0, 0, 0, 16, 2, 24, 1, 26, 9, 104, 116, 116, 112, 115, 58, 47, 47, 120, 26, 9, 104, 116,
    116, 112, 115, 58, 47, 47, 120,
];

// The other instance in lower case.
const OTHER_INSTANCE_SAID: [u8; 63] = [
    10, 61, 10, 19, 115, 101, 114, 118, 105, 99, 101, 46, 105, 110, 115, 116, 97, 110, 99, 101, 46,
    105, 100, 18, 38, 10, 36, 97, 97, 97, 97, 97, 97, 97, 97, 45, 48, 48, 48, 48, 45, 48, 48, 48,
    48, 45, 48, 48, 48, 48, 45, 48, 48, 48, 48, 48, 48, 48, 48, 48, 48, 48, 98,
];

// Fields of the point in another order, unknown fields 99 of all wire types.
const OTHER_ORDER: [u8; 64] = [
    18, 62, 18, 60, 10, 1, 120, 58, 55, 10, 51, 49, 7, 0, 0, 0, 0, 0, 0, 0, 152, 6, 5, 157, 6, 97,
    98, 99, 100, 153, 6, 1, 0, 0, 0, 0, 0, 0, 0, 154, 6, 2, 122, 122, 25, 200, 0, 0, 0, 0, 0, 0, 0,
    17, 100, 0, 0, 0, 0, 0, 0, 0, 16, 2,
];

// Numbers in more bytes than they want.
const LONG_NUMBERS: [u8; 47] = [
    18, 45, 18, 43, 10, 1, 120, 58, 164, 128, 0, 10, 27, 17, 100, 0, 0, 0, 0, 0, 0, 0, 25, 200, 0,
    0, 0, 0, 0, 0, 0, 49, 7, 0, 0, 0, 0, 0, 0, 0, 16, 130, 128, 0, 152, 0, 1,
];

// Buckets and bounds not packed.
const NOT_PACKED: [u8; 76] = [
    18, 74, 18, 72, 10, 1, 120, 74, 67, 10, 63, 17, 100, 0, 0, 0, 0, 0, 0, 0, 25, 200, 0, 0, 0, 0,
    0, 0, 0, 33, 3, 0, 0, 0, 0, 0, 0, 0, 41, 0, 0, 0, 0, 0, 0, 62, 64, 49, 1, 0, 0, 0, 0, 0, 0, 0,
    49, 2, 0, 0, 0, 0, 0, 0, 0, 57, 0, 0, 0, 0, 0, 0, 20, 64, 16, 2,
];

// Partly packed.
const PARTLY_PACKED: [u8; 77] = [
    18, 75, 18, 73, 10, 1, 120, 74, 68, 10, 64, 17, 100, 0, 0, 0, 0, 0, 0, 0, 25, 200, 0, 0, 0, 0,
    0, 0, 0, 33, 3, 0, 0, 0, 0, 0, 0, 0, 41, 0, 0, 0, 0, 0, 0, 62, 64, 49, 1, 0, 0, 0, 0, 0, 0, 0,
    50, 8, 2, 0, 0, 0, 0, 0, 0, 0, 57, 0, 0, 0, 0, 0, 0, 20, 64, 16, 2,
];

// A histogram that counts no buckets.
const NO_BUCKETS: [u8; 49] = [
    18, 47, 18, 45, 10, 1, 120, 74, 40, 10, 36, 17, 100, 0, 0, 0, 0, 0, 0, 0, 25, 200, 0, 0, 0, 0,
    0, 0, 0, 33, 3, 0, 0, 0, 0, 0, 0, 0, 41, 0, 0, 0, 0, 0, 0, 62, 64, 16, 2,
];

// One scope twice, alike.
const SCOPE_AGAIN: [u8; 110] = [
    18, 53, 10, 8, 10, 3, 97, 112, 112, 18, 1, 49, 18, 41, 10, 1, 120, 26, 1, 49, 58, 33, 10, 27,
    17, 100, 0, 0, 0, 0, 0, 0, 0, 25, 200, 0, 0, 0, 0, 0, 0, 0, 49, 7, 0, 0, 0, 0, 0, 0, 0, 16, 2,
    24, 1, 18, 53, 10, 8, 10, 3, 97, 112, 112, 18, 1, 49, 18, 41, 10, 1, 121, 26, 1, 49, 58, 33,
    10, 27, 17, 100, 0, 0, 0, 0, 0, 0, 0, 25, 200, 0, 0, 0, 0, 0, 0, 0, 49, 7, 0, 0, 0, 0, 0, 0, 0,
    16, 2, 24, 1,
];

// The same in another version.
const SCOPE_OF_2: [u8; 110] = [
    18, 53, 10, 8, 10, 3, 97, 112, 112, 18, 1, 50, 18, 41, 10, 1, 120, 26, 1, 49, 58, 33, 10, 27,
    17, 100, 0, 0, 0, 0, 0, 0, 0, 25, 200, 0, 0, 0, 0, 0, 0, 0, 49, 7, 0, 0, 0, 0, 0, 0, 0, 16, 2,
    24, 1, 18, 53, 10, 8, 10, 3, 97, 112, 112, 18, 1, 50, 18, 41, 10, 1, 121, 26, 1, 49, 58, 33,
    10, 27, 17, 100, 0, 0, 0, 0, 0, 0, 0, 25, 200, 0, 0, 0, 0, 0, 0, 0, 49, 7, 0, 0, 0, 0, 0, 0, 0,
    16, 2, 24, 1,
];

// Minus zero, and the greatest exact sum.
const EXTREME_DOUBLES: [u8; 105] = [
    18, 103, 10, 5, 10, 3, 97, 112, 112, 18, 94, 10, 1, 120, 26, 1, 49, 74, 86, 10, 82, 17, 100, 0,
    0, 0, 0, 0, 0, 0, 25, 200, 0, 0, 0, 0, 0, 0, 0, 33, 3, 0, 0, 0, 0, 0, 0, 0, 41, 255, 255, 255,
    255, 255, 255, 63, 67, 50, 16, 1, 0, 0, 0, 0, 0, 0, 0, 2, 0, 0, 0, 0, 0, 0, 0, 58, 8, 0, 0, 0,
    0, 0, 0, 20, 64, 89, 0, 0, 0, 0, 0, 0, 0, 128, 97, 0, 0, 0, 0, 0, 0, 62, 64, 16, 2,
];

// What docker 28.2.2 sends by the Go SDK 1.31, but cumulative and a whole number: a scope with a version, resource attributes.
const FROM_GO: [u8; 523] = [
    10, 136, 4, 10, 195, 1, 10, 61, 10, 19, 115, 101, 114, 118, 105, 99, 101, 46, 105, 110, 115,
    116, 97, 110, 99, 101, 46, 105, 100, 18, 38, 10, 36, 55, 98, 54, 49, 56, 53, 55, 100, 45, 57,
    50, 54, 50, 45, 52, 98, 97, 99, 45, 97, 98, 97, 51, 45, 100, 98, 101, 101, 52, 48, 51, 50, 57,
    48, 56, 56, 10, 24, 10, 12, 115, 101, 114, 118, 105, 99, 101, 46, 110, 97, 109, 101, 18, 8, 10,
    6, 100, 111, 99, 107, 101, 114, 10, 30, 10, 22, 116, 101, 108, 101, 109, 101, 116, 114, 121,
    46, 115, 100, 107, 46, 108, 97, 110, 103, 117, 97, 103, 101, 18, 4, 10, 2, 103, 111, 10, 37,
    10, 18, 116, 101, 108, 101, 109, 101, 116, 114, 121, 46, 115, 100, 107, 46, 110, 97, 109, 101,
    18, 15, 10, 13, 111, 112, 101, 110, 116, 101, 108, 101, 109, 101, 116, 114, 121, 10, 33, 10,
    21, 116, 101, 108, 101, 109, 101, 116, 114, 121, 46, 115, 100, 107, 46, 118, 101, 114, 115,
    105, 111, 110, 18, 8, 10, 6, 49, 46, 51, 49, 46, 48, 18, 150, 2, 10, 31, 10, 21, 103, 105, 116,
    104, 117, 98, 46, 99, 111, 109, 47, 100, 111, 99, 107, 101, 114, 47, 99, 108, 105, 18, 6, 50,
    56, 46, 50, 46, 50, 18, 242, 1, 10, 12, 99, 111, 109, 109, 97, 110, 100, 46, 116, 105, 109,
    101, 18, 42, 77, 101, 97, 115, 117, 114, 101, 115, 32, 116, 104, 101, 32, 100, 117, 114, 97,
    116, 105, 111, 110, 32, 111, 102, 32, 116, 104, 101, 32, 99, 111, 98, 114, 97, 32, 99, 111,
    109, 109, 97, 110, 100, 26, 2, 109, 115, 58, 177, 1, 10, 170, 1, 17, 190, 187, 131, 234, 56,
    233, 235, 24, 25, 52, 240, 137, 234, 56, 233, 235, 24, 49, 52, 1, 0, 0, 0, 0, 0, 0, 58, 28, 10,
    12, 99, 111, 109, 109, 97, 110, 100, 46, 110, 97, 109, 101, 18, 12, 10, 10, 99, 111, 110, 116,
    101, 120, 116, 32, 108, 115, 58, 25, 10, 19, 99, 111, 109, 109, 97, 110, 100, 46, 115, 116, 97,
    116, 117, 115, 46, 99, 111, 100, 101, 18, 2, 24, 0, 58, 27, 10, 21, 99, 111, 109, 109, 97, 110,
    100, 46, 115, 116, 100, 101, 114, 114, 46, 105, 115, 97, 116, 116, 121, 18, 2, 16, 0, 58, 26,
    10, 20, 99, 111, 109, 109, 97, 110, 100, 46, 115, 116, 100, 105, 110, 46, 105, 115, 97, 116,
    116, 121, 18, 2, 16, 0, 58, 27, 10, 21, 99, 111, 109, 109, 97, 110, 100, 46, 115, 116, 100,
    111, 117, 116, 46, 105, 115, 97, 116, 116, 121, 18, 2, 16, 0, 16, 2, 24, 1, 26, 39, 104, 116,
    116, 112, 115, 58, 47, 47, 111, 112, 101, 110, 116, 101, 108, 101, 109, 101, 116, 114, 121, 46,
    105, 111, 47, 115, 99, 104, 101, 109, 97, 115, 47, 49, 46, 50, 54, 46, 48,
];

// What they say, export by export.

const ALL_KINDS_0: [u8; 79] = [
    18, 77, 10, 5, 10, 3, 97, 112, 112, 18, 68, 10, 1, 120, 26, 1, 49, 58, 60, 10, 54, 17, 100, 0,
    0, 0, 0, 0, 0, 0, 25, 200, 0, 0, 0, 0, 0, 0, 0, 49, 7, 0, 0, 0, 0, 0, 0, 0, 58, 16, 10, 1, 97,
    18, 11, 24, 251, 255, 255, 255, 255, 255, 255, 255, 255, 1, 58, 7, 10, 1, 98, 18, 2, 16, 1, 16,
    2, 24, 1,
];

const ALL_KINDS_1: [u8; 39] = [
    18, 37, 10, 5, 10, 3, 97, 112, 112, 18, 28, 10, 1, 103, 26, 1, 49, 42, 20, 10, 18, 25, 200, 0,
    0, 0, 0, 0, 0, 0, 49, 7, 0, 0, 0, 0, 0, 0, 0,
];

const ALL_KINDS_2: [u8; 52] = [
    18, 50, 10, 5, 10, 3, 97, 112, 112, 18, 41, 10, 1, 121, 26, 1, 49, 58, 33, 10, 27, 17, 100, 0,
    0, 0, 0, 0, 0, 0, 25, 44, 1, 0, 0, 0, 0, 0, 0, 49, 7, 0, 0, 0, 0, 0, 0, 0, 16, 2, 24, 1,
];

const OTHER_ORDER_SAID: [u8; 42] = [
    18, 40, 10, 0, 18, 36, 10, 1, 120, 58, 31, 10, 27, 17, 100, 0, 0, 0, 0, 0, 0, 0, 25, 200, 0, 0,
    0, 0, 0, 0, 0, 49, 7, 0, 0, 0, 0, 0, 0, 0, 16, 2,
];

const LONG_NUMBERS_SAID: [u8; 44] = [
    18, 42, 10, 0, 18, 38, 10, 1, 120, 58, 33, 10, 27, 17, 100, 0, 0, 0, 0, 0, 0, 0, 25, 200, 0, 0,
    0, 0, 0, 0, 0, 49, 7, 0, 0, 0, 0, 0, 0, 0, 16, 2, 24, 1,
];

const PACKED_SAID: [u8; 79] = [
    18, 77, 10, 0, 18, 73, 10, 1, 120, 74, 68, 10, 64, 17, 100, 0, 0, 0, 0, 0, 0, 0, 25, 200, 0, 0,
    0, 0, 0, 0, 0, 33, 3, 0, 0, 0, 0, 0, 0, 0, 41, 0, 0, 0, 0, 0, 0, 62, 64, 50, 16, 1, 0, 0, 0, 0,
    0, 0, 0, 2, 0, 0, 0, 0, 0, 0, 0, 58, 8, 0, 0, 0, 0, 0, 0, 20, 64, 16, 2,
];

const NO_BUCKETS_SAID: [u8; 61] = [
    18, 59, 10, 0, 18, 55, 10, 1, 120, 74, 50, 10, 46, 17, 100, 0, 0, 0, 0, 0, 0, 0, 25, 200, 0, 0,
    0, 0, 0, 0, 0, 33, 3, 0, 0, 0, 0, 0, 0, 0, 41, 0, 0, 0, 0, 0, 0, 62, 64, 50, 8, 3, 0, 0, 0, 0,
    0, 0, 0, 16, 2,
];

const SCOPE_AGAIN_SAID: [u8; 95] = [
    18, 93, 10, 5, 10, 3, 97, 112, 112, 18, 41, 10, 1, 120, 26, 1, 49, 58, 33, 10, 27, 17, 100, 0,
    0, 0, 0, 0, 0, 0, 25, 200, 0, 0, 0, 0, 0, 0, 0, 49, 7, 0, 0, 0, 0, 0, 0, 0, 16, 2, 24, 1, 18,
    41, 10, 1, 121, 26, 1, 49, 58, 33, 10, 27, 17, 100, 0, 0, 0, 0, 0, 0, 0, 25, 200, 0, 0, 0, 0,
    0, 0, 0, 49, 7, 0, 0, 0, 0, 0, 0, 0, 16, 2, 24, 1,
];

const EXTREME_DOUBLES_SAID: [u8; 105] = [
    18, 103, 10, 5, 10, 3, 97, 112, 112, 18, 94, 10, 1, 120, 26, 1, 49, 74, 86, 10, 82, 17, 100, 0,
    0, 0, 0, 0, 0, 0, 25, 200, 0, 0, 0, 0, 0, 0, 0, 33, 3, 0, 0, 0, 0, 0, 0, 0, 41, 255, 255, 255,
    255, 255, 255, 63, 67, 50, 16, 1, 0, 0, 0, 0, 0, 0, 0, 2, 0, 0, 0, 0, 0, 0, 0, 58, 8, 0, 0, 0,
    0, 0, 0, 20, 64, 89, 0, 0, 0, 0, 0, 0, 0, 0, 97, 0, 0, 0, 0, 0, 0, 62, 64, 16, 2,
];

const FROM_GO_SAID: [u8; 323] = [
    10, 192, 2, 10, 89, 10, 61, 10, 19, 115, 101, 114, 118, 105, 99, 101, 46, 105, 110, 115, 116,
    97, 110, 99, 101, 46, 105, 100, 18, 38, 10, 36, 55, 98, 54, 49, 56, 53, 55, 100, 45, 57, 50,
    54, 50, 45, 52, 98, 97, 99, 45, 97, 98, 97, 51, 45, 100, 98, 101, 101, 52, 48, 51, 50, 57, 48,
    56, 56, 10, 24, 10, 12, 115, 101, 114, 118, 105, 99, 101, 46, 110, 97, 109, 101, 18, 8, 10, 6,
    100, 111, 99, 107, 101, 114, 18, 226, 1, 10, 23, 10, 21, 103, 105, 116, 104, 117, 98, 46, 99,
    111, 109, 47, 100, 111, 99, 107, 101, 114, 47, 99, 108, 105, 18, 198, 1, 10, 12, 99, 111, 109,
    109, 97, 110, 100, 46, 116, 105, 109, 101, 26, 2, 109, 115, 58, 177, 1, 10, 170, 1, 17, 190,
    187, 131, 234, 56, 233, 235, 24, 25, 52, 240, 137, 234, 56, 233, 235, 24, 49, 52, 1, 0, 0, 0,
    0, 0, 0, 58, 28, 10, 12, 99, 111, 109, 109, 97, 110, 100, 46, 110, 97, 109, 101, 18, 12, 10,
    10, 99, 111, 110, 116, 101, 120, 116, 32, 108, 115, 58, 25, 10, 19, 99, 111, 109, 109, 97, 110,
    100, 46, 115, 116, 97, 116, 117, 115, 46, 99, 111, 100, 101, 18, 2, 24, 0, 58, 27, 10, 21, 99,
    111, 109, 109, 97, 110, 100, 46, 115, 116, 100, 101, 114, 114, 46, 105, 115, 97, 116, 116, 121,
    18, 2, 16, 0, 58, 26, 10, 20, 99, 111, 109, 109, 97, 110, 100, 46, 115, 116, 100, 105, 110, 46,
    105, 115, 97, 116, 116, 121, 18, 2, 16, 0, 58, 27, 10, 21, 99, 111, 109, 109, 97, 110, 100, 46,
    115, 116, 100, 111, 117, 116, 46, 105, 115, 97, 116, 116, 121, 18, 2, 16, 0, 16, 2, 24, 1,
];

// What is refused, behind a resource.

const TWO_VERSIONS: [u8; 24] = [
    18, 10, 10, 8, 10, 3, 97, 112, 112, 18, 1, 49, 18, 10, 10, 8, 10, 3, 97, 112, 112, 18, 1, 50,
];

const EXPONENTIAL: [u8; 16] = [18, 14, 10, 5, 10, 3, 97, 112, 112, 18, 5, 10, 1, 120, 82, 0];

const SUMMARY: [u8; 16] = [18, 14, 10, 5, 10, 3, 97, 112, 112, 18, 5, 10, 1, 120, 90, 0];

const NO_DATA: [u8; 14] = [18, 12, 10, 5, 10, 3, 97, 112, 112, 18, 3, 10, 1, 120];

const DELTAS: [u8; 49] = [
    18, 47, 10, 5, 10, 3, 97, 112, 112, 18, 38, 10, 1, 120, 58, 33, 10, 27, 17, 100, 0, 0, 0, 0, 0,
    0, 0, 25, 200, 0, 0, 0, 0, 0, 0, 0, 49, 7, 0, 0, 0, 0, 0, 0, 0, 16, 1, 24, 1,
];

const NO_TEMPORALITY: [u8; 49] = [
    18, 47, 10, 5, 10, 3, 97, 112, 112, 18, 38, 10, 1, 120, 58, 33, 10, 27, 17, 100, 0, 0, 0, 0, 0,
    0, 0, 25, 200, 0, 0, 0, 0, 0, 0, 0, 49, 7, 0, 0, 0, 0, 0, 0, 0, 16, 0, 24, 1,
];

const NO_RECORDED_VALUE: [u8; 80] = [
    18, 78, 10, 5, 10, 3, 97, 112, 112, 18, 69, 10, 1, 120, 58, 64, 10, 27, 17, 100, 0, 0, 0, 0, 0,
    0, 0, 25, 200, 0, 0, 0, 0, 0, 0, 0, 49, 7, 0, 0, 0, 0, 0, 0, 0, 10, 29, 17, 100, 0, 0, 0, 0, 0,
    0, 0, 25, 200, 0, 0, 0, 0, 0, 0, 0, 49, 7, 0, 0, 0, 0, 0, 0, 0, 64, 1, 16, 2, 24, 1,
];

const UNKNOWN_START: [u8; 40] = [
    18, 38, 10, 5, 10, 3, 97, 112, 112, 18, 29, 10, 1, 120, 58, 24, 10, 18, 25, 200, 0, 0, 0, 0, 0,
    0, 0, 49, 7, 0, 0, 0, 0, 0, 0, 0, 16, 2, 24, 1,
];

const DOUBLE: [u8; 49] = [
    18, 47, 10, 5, 10, 3, 97, 112, 112, 18, 38, 10, 1, 120, 58, 33, 10, 27, 17, 100, 0, 0, 0, 0, 0,
    0, 0, 25, 200, 0, 0, 0, 0, 0, 0, 0, 33, 0, 0, 0, 0, 0, 0, 0, 0, 16, 2, 24, 1,
];

const NO_VALUE: [u8; 40] = [
    18, 38, 10, 5, 10, 3, 97, 112, 112, 18, 29, 10, 1, 120, 58, 24, 10, 18, 17, 100, 0, 0, 0, 0, 0,
    0, 0, 25, 200, 0, 0, 0, 0, 0, 0, 0, 16, 2, 24, 1,
];

const NO_SUM: [u8; 75] = [
    18, 73, 10, 5, 10, 3, 97, 112, 112, 18, 64, 10, 1, 120, 74, 59, 10, 55, 17, 100, 0, 0, 0, 0, 0,
    0, 0, 25, 200, 0, 0, 0, 0, 0, 0, 0, 33, 3, 0, 0, 0, 0, 0, 0, 0, 50, 16, 1, 0, 0, 0, 0, 0, 0, 0,
    2, 0, 0, 0, 0, 0, 0, 0, 58, 8, 0, 0, 0, 0, 0, 0, 20, 64, 16, 2,
];

const HALF_OF_ONE: [u8; 84] = [
    18, 82, 10, 5, 10, 3, 97, 112, 112, 18, 73, 10, 1, 120, 74, 68, 10, 64, 17, 100, 0, 0, 0, 0, 0,
    0, 0, 25, 200, 0, 0, 0, 0, 0, 0, 0, 33, 3, 0, 0, 0, 0, 0, 0, 0, 41, 0, 0, 0, 0, 0, 0, 224, 63,
    50, 16, 1, 0, 0, 0, 0, 0, 0, 0, 2, 0, 0, 0, 0, 0, 0, 0, 58, 8, 0, 0, 0, 0, 0, 0, 20, 64, 16, 2,
];

const TWO_TO_THE_53: [u8; 84] = [
    18, 82, 10, 5, 10, 3, 97, 112, 112, 18, 73, 10, 1, 120, 74, 68, 10, 64, 17, 100, 0, 0, 0, 0, 0,
    0, 0, 25, 200, 0, 0, 0, 0, 0, 0, 0, 33, 3, 0, 0, 0, 0, 0, 0, 0, 41, 0, 0, 0, 0, 0, 0, 64, 67,
    50, 16, 1, 0, 0, 0, 0, 0, 0, 0, 2, 0, 0, 0, 0, 0, 0, 0, 58, 8, 0, 0, 0, 0, 0, 0, 20, 64, 16, 2,
];

const FALLING_BOUNDS: [u8; 100] = [
    18, 98, 10, 5, 10, 3, 97, 112, 112, 18, 89, 10, 1, 120, 74, 84, 10, 80, 17, 100, 0, 0, 0, 0, 0,
    0, 0, 25, 200, 0, 0, 0, 0, 0, 0, 0, 33, 3, 0, 0, 0, 0, 0, 0, 0, 41, 0, 0, 0, 0, 0, 0, 62, 64,
    50, 24, 1, 0, 0, 0, 0, 0, 0, 0, 1, 0, 0, 0, 0, 0, 0, 0, 1, 0, 0, 0, 0, 0, 0, 0, 58, 16, 0, 0,
    0, 0, 0, 0, 20, 64, 0, 0, 0, 0, 0, 0, 16, 64, 16, 2,
];

const HALF_A_RANGE: [u8; 93] = [
    18, 91, 10, 5, 10, 3, 97, 112, 112, 18, 82, 10, 1, 120, 74, 77, 10, 73, 17, 100, 0, 0, 0, 0, 0,
    0, 0, 25, 200, 0, 0, 0, 0, 0, 0, 0, 33, 3, 0, 0, 0, 0, 0, 0, 0, 41, 0, 0, 0, 0, 0, 0, 62, 64,
    50, 16, 1, 0, 0, 0, 0, 0, 0, 0, 2, 0, 0, 0, 0, 0, 0, 0, 58, 8, 0, 0, 0, 0, 0, 0, 20, 64, 89, 0,
    0, 0, 0, 0, 0, 0, 0, 16, 2,
];

const EMPTY_KEY: [u8; 58] = [
    18, 56, 10, 5, 10, 3, 97, 112, 112, 18, 47, 10, 1, 120, 58, 42, 10, 36, 17, 100, 0, 0, 0, 0, 0,
    0, 0, 25, 200, 0, 0, 0, 0, 0, 0, 0, 49, 7, 0, 0, 0, 0, 0, 0, 0, 58, 7, 10, 0, 18, 3, 10, 1, 97,
    16, 2, 24, 1,
];

const KEY_TWICE: [u8; 66] = [
    18, 64, 10, 5, 10, 3, 97, 112, 112, 18, 55, 10, 1, 120, 58, 50, 10, 44, 17, 100, 0, 0, 0, 0, 0,
    0, 0, 25, 200, 0, 0, 0, 0, 0, 0, 0, 49, 7, 0, 0, 0, 0, 0, 0, 0, 58, 8, 10, 1, 107, 18, 3, 10,
    1, 97, 58, 5, 10, 1, 107, 18, 0, 16, 2, 24, 1,
];

const DOUBLE_AS_ATTRIBUTE: [u8; 65] = [
    18, 63, 10, 5, 10, 3, 97, 112, 112, 18, 54, 10, 1, 120, 58, 49, 10, 43, 17, 100, 0, 0, 0, 0, 0,
    0, 0, 25, 200, 0, 0, 0, 0, 0, 0, 0, 49, 7, 0, 0, 0, 0, 0, 0, 0, 58, 14, 10, 1, 107, 18, 9, 33,
    0, 0, 0, 0, 0, 0, 0, 0, 16, 2, 24, 1,
];

const POINT_TWICE: [u8; 78] = [
    18, 76, 10, 5, 10, 3, 97, 112, 112, 18, 67, 10, 1, 120, 58, 62, 10, 27, 17, 100, 0, 0, 0, 0, 0,
    0, 0, 25, 200, 0, 0, 0, 0, 0, 0, 0, 49, 7, 0, 0, 0, 0, 0, 0, 0, 10, 27, 17, 100, 0, 0, 0, 0, 0,
    0, 0, 25, 200, 0, 0, 0, 0, 0, 0, 0, 49, 7, 0, 0, 0, 0, 0, 0, 0, 16, 2, 24, 1,
];

const NO_UUID: [u8; 32] = [
    10, 30, 10, 19, 115, 101, 114, 118, 105, 99, 101, 46, 105, 110, 115, 116, 97, 110, 99, 101, 46,
    105, 100, 18, 7, 10, 5, 112, 111, 100, 45, 49,
];

// A message of these parts, as field 1.
pub(crate) fn field(alloc: Global, parts: &[&[u8]]) -> Result<Vec<u8>, Fail> {
    let mut bytes = Vec::new(alloc);
    for part in parts {
        bytes.extend_from_slice(part)?;
    }
    close_block(1, 0, &mut bytes)?;
    Ok(bytes)
}

// A request of one resource with these attributes, and what stands behind it.
pub(crate) fn request(alloc: Global, attributes: &[&[u8]], behind: &[u8]) -> Result<Vec<u8>, Fail> {
    field(alloc, &[field(alloc, attributes)?.as_slice(), behind])
}

// The request that this crate makes of such an export.
pub(crate) fn own(alloc: Global, behind: &[u8]) -> Result<Vec<u8>, Fail> {
    request(alloc, &[&INSTANCE, &SERVICE], behind)
}

// Whether a request brings exports of which these are the requests, one after another.
fn says(alloc: Global, bytes: &[u8], said: &[&[u8]]) -> Result<bool, Fail> {
    let exports = decode_otlp(alloc, bytes)?;
    if exports.len() != said.len() {
        return Ok(false);
    }
    for place in 0..exports.len() {
        if encode_otlp(alloc, &exports[place])?.as_slice() != said[place] {
            return Ok(false);
        }
    }
    Ok(true)
}

// The same of one resource that brings one export, as others write it.
pub(crate) fn says_one(alloc: Global, behind: &[u8], said: &[u8]) -> Result<bool, Fail> {
    let bytes = request(alloc, &[&SERVICE, &INSTANCE], behind)?;
    says(alloc, bytes.as_slice(), &[own(alloc, said)?.as_slice()])
}

pub(crate) fn fault(alloc: Global, bytes: &[u8]) -> Option<RequestFault> {
    decode_otlp(alloc, bytes).err()
}

// Why a request of a resource with these attributes is refused.
fn fault_of(alloc: Global, attributes: &[&[u8]]) -> Result<Option<RequestFault>, Fail> {
    Ok(fault(alloc, request(alloc, attributes, &[])?.as_slice()))
}

// Why one is with this behind a good resource.
pub(crate) fn fault_behind(alloc: Global, behind: &[u8]) -> Result<Option<RequestFault>, Fail> {
    Ok(fault(alloc, own(alloc, behind)?.as_slice()))
}

#[test]
fn what_was_written(rt: HostRuntime) -> Result<(), Fail> {
    let alloc = rt.alloc();
    assert!(rt; says(alloc, &FIRST, &[&FIRST])?);
    assert!(rt; says(alloc, &ATTRIBUTES, &[&ATTRIBUTES])?);
    assert!(rt; says(alloc, &HISTOGRAMS, &[&HISTOGRAMS])?);
    assert!(rt; says(alloc, &SCOPES, &[&SCOPES])?);
    assert!(rt; says(alloc, &[], &[])?);
    Ok(())
}

#[test]
fn what_others_write(rt: HostRuntime) -> Result<(), Fail> {
    let alloc = rt.alloc();
    assert!(rt; says_one(alloc, &OTHER_ORDER, &OTHER_ORDER_SAID)?);
    assert!(rt; says_one(alloc, &LONG_NUMBERS, &LONG_NUMBERS_SAID)?);
    assert!(rt; says_one(alloc, &NOT_PACKED, &PACKED_SAID)?);
    assert!(rt; says_one(alloc, &PARTLY_PACKED, &PACKED_SAID)?);
    assert!(rt; says_one(alloc, &NO_BUCKETS, &NO_BUCKETS_SAID)?);
    assert!(rt; says_one(alloc, &SCOPE_AGAIN, &SCOPE_AGAIN_SAID)?);
    assert!(rt; says_one(alloc, &EXTREME_DOUBLES, &EXTREME_DOUBLES_SAID)?);
    assert!(rt; says(alloc, &FROM_GO, &[&FROM_GO_SAID])?);
    Ok(())
}

// The three exports of one resource.
fn all_kinds(alloc: Global, instance: &[u8]) -> Result<[Vec<u8>; 3], Fail> {
    let attributes: [&[u8]; 2] = [instance, &SERVICE];
    Ok([
        request(alloc, &attributes, &ALL_KINDS_0)?,
        request(alloc, &attributes, &ALL_KINDS_1)?,
        request(alloc, &attributes, &ALL_KINDS_2)?,
    ])
}

#[test]
fn several_resources(rt: HostRuntime) -> Result<(), Fail> {
    let alloc = rt.alloc();
    let mut bytes = request(alloc, &[&SERVICE, &INSTANCE, &SDK], &ALL_KINDS)?;
    let other = request(alloc, &[&SERVICE, &OTHER_INSTANCE, &SDK], &ALL_KINDS)?;
    bytes.extend_from_slice(other.as_slice())?;
    let [a, b, c] = all_kinds(alloc, &INSTANCE)?;
    let [d, e, f] = all_kinds(alloc, &OTHER_INSTANCE_SAID)?;
    let said = [
        a.as_slice(),
        b.as_slice(),
        c.as_slice(),
        d.as_slice(),
        e.as_slice(),
        f.as_slice(),
    ];
    assert!(rt; says(alloc, bytes.as_slice(), &said)?);
    Ok(())
}

// Two resources may name one scope in two versions.
#[test]
fn a_scope_of_two_resources(rt: HostRuntime) -> Result<(), Fail> {
    let alloc = rt.alloc();
    let mut bytes = request(alloc, &[&SERVICE, &INSTANCE], &SCOPE_AGAIN)?;
    let other = request(alloc, &[&SERVICE, &INSTANCE], &SCOPE_OF_2)?;
    bytes.extend_from_slice(other.as_slice())?;
    let one = own(alloc, &SCOPE_AGAIN_SAID)?;
    assert!(rt; says(alloc, bytes.as_slice(), &[one.as_slice(), one.as_slice()])?);
    Ok(())
}

#[test]
fn bytes_are_refused(rt: HostRuntime) -> Result<(), Fail> {
    let alloc = rt.alloc();
    // A tag that ends early.
    assert_eq!(rt;
        fault(alloc, &[10, 1, 128]),
        Some(RequestReason::Malformed.at(2))
    );
    // Wire type 3.
    assert_eq!(rt; fault(alloc, &[11]), Some(RequestReason::Malformed.at(0)));
    // Field 0.
    assert_eq!(rt; fault(alloc, &[0, 0]), Some(RequestReason::Malformed.at(0)));
    // A number that ends early, behind its tag.
    assert_eq!(rt;
        fault(alloc, &[88, 255]),
        Some(RequestReason::Malformed.at(1))
    );
    // A length beyond the message.
    assert_eq!(rt;
        fault(alloc, &[10, 2, 10]),
        Some(RequestReason::Malformed.at(0))
    );
    // Another wire type.
    assert_eq!(rt; fault(alloc, &[8, 1]), Some(RequestReason::Malformed.at(0)));
    // No text.
    assert_eq!(rt;
        fault(alloc, &[10, 7, 10, 5, 10, 3, 10, 1, 255]),
        Some(RequestReason::NotText.at(8))
    );
    Ok(())
}

#[test]
fn resources_are_refused(rt: HostRuntime) -> Result<(), Fail> {
    let alloc = rt.alloc();
    let two = [field(alloc, &[&INSTANCE])?, field(alloc, &[&SERVICE])?];
    let twice = field(alloc, &[two[0].as_slice(), two[1].as_slice()])?;
    assert_eq!(rt;
        fault(alloc, twice.as_slice()),
        Some(RequestReason::Malformed.at(67))
    );
    assert_eq!(rt;
        fault_of(alloc, &[&INSTANCE])?,
        Some(RequestReason::NoService.at(0))
    );
    assert_eq!(rt;
        fault_of(alloc, &[&INSTANCE, &SERVICE, &SERVICE])?,
        Some(RequestReason::NoService.at(0))
    );
    assert_eq!(rt;
        fault_of(alloc, &[&SERVICE])?,
        Some(RequestReason::NoInstance.at(0))
    );
    assert_eq!(rt;
        fault_of(alloc, &[&SERVICE, &NO_UUID])?,
        Some(RequestReason::NotUuid.at(0))
    );
    Ok(())
}

#[test]
fn scopes_and_metrics_are_refused(rt: HostRuntime) -> Result<(), Fail> {
    let alloc = rt.alloc();
    assert_eq!(rt;
        fault_behind(alloc, &TWO_VERSIONS)?,
        Some(RequestReason::ScopeTwice.at(1))
    );
    assert_eq!(rt;
        fault_behind(alloc, &EXPONENTIAL)?,
        Some(RequestReason::ExponentialHistogram.at(0))
    );
    assert_eq!(rt;
        fault_behind(alloc, &SUMMARY)?,
        Some(RequestReason::Summary.at(0))
    );
    assert_eq!(rt;
        fault_behind(alloc, &NO_DATA)?,
        Some(RequestReason::NoData.at(0))
    );
    assert_eq!(rt;
        fault_behind(alloc, &DELTAS)?,
        Some(RequestReason::Delta.at(0))
    );
    assert_eq!(rt;
        fault_behind(alloc, &NO_TEMPORALITY)?,
        Some(RequestReason::NoTemporality.at(0))
    );
    Ok(())
}

#[test]
fn points_are_refused(rt: HostRuntime) -> Result<(), Fail> {
    let alloc = rt.alloc();
    assert_eq!(rt;
        fault_behind(alloc, &NO_RECORDED_VALUE)?,
        Some(RequestReason::NoRecordedValue.at(1))
    );
    assert_eq!(rt;
        fault_behind(alloc, &UNKNOWN_START)?,
        Some(RequestReason::UnknownStart.at(0))
    );
    assert_eq!(rt;
        fault_behind(alloc, &DOUBLE)?,
        Some(RequestReason::FloatValue.at(0))
    );
    assert_eq!(rt;
        fault_behind(alloc, &NO_VALUE)?,
        Some(RequestReason::NoValue.at(0))
    );
    assert_eq!(rt;
        fault_behind(alloc, &EMPTY_KEY)?,
        Some(RequestReason::EmptyKey.at(0))
    );
    assert_eq!(rt;
        fault_behind(alloc, &KEY_TWICE)?,
        Some(RequestReason::AttributeTwice.at(0))
    );
    assert_eq!(rt;
        fault_behind(alloc, &DOUBLE_AS_ATTRIBUTE)?,
        Some(RequestReason::AttributeValue.at(0))
    );
    assert_eq!(rt;
        fault_behind(alloc, &POINT_TWICE)?,
        Some(RequestReason::BadExport(ExportFault::KeyTwice(1)).at(0))
    );
    Ok(())
}

#[test]
fn histograms_are_refused(rt: HostRuntime) -> Result<(), Fail> {
    let alloc = rt.alloc();
    assert_eq!(rt;
        fault_behind(alloc, &NO_SUM)?,
        Some(RequestReason::NoSum.at(0))
    );
    assert_eq!(rt;
        fault_behind(alloc, &HALF_OF_ONE)?,
        Some(RequestReason::NotWhole.at(0))
    );
    assert_eq!(rt;
        fault_behind(alloc, &TWO_TO_THE_53)?,
        Some(RequestReason::Inexact.at(0))
    );
    assert_eq!(rt;
        fault_behind(alloc, &FALLING_BOUNDS)?,
        Some(RequestReason::BadBounds.at(0))
    );
    assert_eq!(rt;
        fault_behind(alloc, &HALF_A_RANGE)?,
        Some(RequestReason::HalfRange.at(0))
    );
    Ok(())
}
