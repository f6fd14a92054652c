// The heads of the DCT tables: the first half of their rows 1, 2 and 3, for kernels with at most four live inputs.

// Of the 8-point DCT, 3 by 4.
pub const DCT8_HEAD: [i8; 12] = [89, 75, 50, 18, 83, 35, -35, -83, 75, -18, -89, -50];

// Of the 16-point DCT, 3 by 8.
pub const DCT16_HEAD: [i8; 24] = [
    90, 87, 80, 70, 57, 43, 26, 9, 89, 75, 50, 18, -18, -50, -75, -89, 87, 57, 9, -43, -80, -90,
    -70, -26,
];

// Of the 32-point DCT, 3 by 16.
pub const DCT32_HEAD: [i8; 48] = [
    90, 90, 88, 85, 82, 78, 73, 67, 61, 54, 47, 39, 30, 22, 13, 4, 90, 87, 80, 70, 57, 43, 26, 9,
    -9, -26, -43, -57, -70, -80, -87, -90, 90, 82, 67, 47, 22, -4, -30, -54, -73, -85, -90, -88,
    -78, -61, -39, -13,
];
