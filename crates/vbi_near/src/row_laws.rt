//! Laws of rows on which a word is cut short, or its cells have other lengths. A function here does nothing.

ghost use Rattle.std.specs.Prelude.{◌≡◌, ℕ, ◌+◌, false, List, [], ◌∷◌, map, Some};
ghost use Rattle.vbi_near.specs.Common.{System, Ntsc, Pal, start_of, boundary, picture_of};
ghost use Rattle.vbi_near.specs.ShorterSignal.{begun_later, ended_earlier, row_of_halves};
ghost use Rattle.vbi_near.specs.StretchedCells.{stretched_length, stretched_offset, stretched_picture};
ghost use Rattle.vbi_words.specs.WorkedLines.{changing};

/// A word on cells of a hundred hundredths of their length is drawn as any word is, from each start.
pub fn stretched_by_none()
    ensures offset { (system : System) (j : ℕ) → start_of system + stretched_offset system 100 j ≡ boundary system j }
    ensures picture { (system : System) (word start : ℕ)
        → stretched_picture system 100 word start ≡ picture_of system (Some word) start }
{}

/// Rows on which a word begins later or ends earlier, and rows of words on cells of other lengths, each written
/// down by the columns at which its level changes, and its width.
pub fn worked_rows()
    ensures two_later { row_of_halves Ntsc 100 (begun_later 0x8AE012 4) ≡ changing false 0 (
        157 ∷ 171 ∷ 185 ∷ 200 ∷ 228 ∷ 257 ∷ 286 ∷ 314 ∷ 343 ∷ 357 ∷ 372 ∷ 386 ∷ 400 ∷ 429 ∷ 443 ∷ 457 ∷ 472 ∷ 486
        ∷ 500 ∷ 515 ∷ 529 ∷ 543 ∷ 558 ∷ 572 ∷ 586 ∷ 601 ∷ 615 ∷ 629 ∷ 658 ∷ 687 ∷ 701 ∷ 715 ∷ 744 ∷ 772 ∷ 910
        ∷ []) }
    ensures one_later { row_of_halves Pal 284 (begun_later 0xFFFFFF 2) ≡ changing false 0 (
        337 ∷ 354 ∷ 372 ∷ 390 ∷ 408 ∷ 425 ∷ 443 ∷ 461 ∷ 479 ∷ 496 ∷ 514 ∷ 532 ∷ 550 ∷ 567 ∷ 585 ∷ 603 ∷ 620 ∷ 638
        ∷ 656 ∷ 674 ∷ 691 ∷ 709 ∷ 727 ∷ 745 ∷ 762 ∷ 780 ∷ 798 ∷ 816 ∷ 833 ∷ 851 ∷ 869 ∷ 886 ∷ 904 ∷ 922 ∷ 940 ∷ 957
        ∷ 975 ∷ 993 ∷ 1011 ∷ 1028 ∷ 1046 ∷ 1064 ∷ 1082 ∷ 1099 ∷ 1117 ∷ 1135 ∷ []) }
    ensures one_earlier { row_of_halves Pal 190 (ended_earlier 0xF12345 2) ≡ changing false 0 (
        207 ∷ 225 ∷ 243 ∷ 260 ∷ 278 ∷ 296 ∷ 314 ∷ 349 ∷ 367 ∷ 385 ∷ 402 ∷ 420 ∷ 456 ∷ 491 ∷ 509 ∷ 526 ∷ 562 ∷ 597
        ∷ 615 ∷ 633 ∷ 651 ∷ 668 ∷ 704 ∷ 722 ∷ 739 ∷ 775 ∷ 810 ∷ 846 ∷ 863 ∷ 881 ∷ 899 ∷ 917 ∷ 952 ∷ 988 ∷ 1135
        ∷ []) }
    ensures two_earlier { row_of_halves Ntsc 150 (ended_earlier 0xF12344 4) ≡ changing false 0 (
        164 ∷ 178 ∷ 192 ∷ 207 ∷ 221 ∷ 235 ∷ 250 ∷ 278 ∷ 293 ∷ 307 ∷ 321 ∷ 336 ∷ 364 ∷ 393 ∷ 407 ∷ 422 ∷ 450 ∷ 479
        ∷ 493 ∷ 507 ∷ 522 ∷ 536 ∷ 565 ∷ 579 ∷ 593 ∷ 622 ∷ 651 ∷ 679 ∷ 694 ∷ 708 ∷ 722 ∷ 737 ∷ 765 ∷ 780 ∷ 910
        ∷ []) }
    ensures longest { stretched_picture Ntsc 102 0x82CFFF 209 ≡ changing false 0 (
        223 ∷ 252 ∷ 267 ∷ 282 ∷ 296 ∷ 311 ∷ 325 ∷ 340 ∷ 355 ∷ 369 ∷ 398 ∷ 428 ∷ 457 ∷ 471 ∷ 486 ∷ 515 ∷ 530 ∷ 544
        ∷ 574 ∷ 588 ∷ 603 ∷ 617 ∷ 632 ∷ 647 ∷ 661 ∷ 676 ∷ 690 ∷ 705 ∷ 720 ∷ 734 ∷ 749 ∷ 763 ∷ 778 ∷ 793 ∷ 807 ∷ 822
        ∷ 836 ∷ 851 ∷ 866 ∷ 880 ∷ 895 ∷ 910 ∷ []) }
    ensures shortest { stretched_picture Pal 98 0x8AE012 0 ≡ changing false 0 (
        17 ∷ 52 ∷ 69 ∷ 86 ∷ 104 ∷ 121 ∷ 156 ∷ 191 ∷ 225 ∷ 260 ∷ 295 ∷ 312 ∷ 330 ∷ 347 ∷ 364 ∷ 399 ∷ 417 ∷ 434 ∷ 451
        ∷ 469 ∷ 486 ∷ 504 ∷ 521 ∷ 538 ∷ 556 ∷ 573 ∷ 590 ∷ 608 ∷ 625 ∷ 643 ∷ 677 ∷ 712 ∷ 729 ∷ 747 ∷ 782 ∷ 816 ∷ 1135
        ∷ []) }
    ensures lengths { (map (stretched_length Ntsc) (98 ∷ 99 ∷ 100 ∷ 101 ∷ 102 ∷ []) ≡ 673 ∷ 680 ∷ 687 ∷ 694 ∷ 701 ∷ [])
        × (map (stretched_length Pal) (98 ∷ 99 ∷ 100 ∷ 101 ∷ 102 ∷ []) ≡ 834 ∷ 842 ∷ 851 ∷ 859 ∷ 868 ∷ []) }
{}
